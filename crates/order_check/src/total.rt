//! The sum of the targets.

ghost use Rattle.std.specs.Prelude.{◌≡◌, ◌<◌, ◌^◌, map};
ghost use Rattle.order_proof.specs.Plain.{plain_part};
ghost use Rattle.order_check.specs.Verdict.{targets};

use order_proof::Part;

/// What the targets of these parts sum to.
pub(crate) fn target_sum(parts: &[Part]) -> u64
    requires { targets (map plain_part parts.now) < 2 ^ 64 }
    ensures { result ≡ targets (map plain_part parts.now) }
{
    let mut sum = 0;
    for part in parts {
        sum += part.target;
    }
    sum
}
