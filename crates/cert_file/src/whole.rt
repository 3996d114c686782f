//! Reading a certificate.

ghost use Rattle.std.specs.Prelude.{◌≡◌, ◌<◌, ◌+◌, ◌^◌, ◌∷◌, [], length, IfOk};
ghost use Rattle.decimal_text.specs.Reading.{reading};
ghost use Rattle.decimal_text.specs.Readers.{Follows, EndsAs};
ghost use Rattle.cert_file.specs.Plain.{plain};
ghost use Rattle.order_proof.specs.Plain.{plain_proof};
ghost use Rattle.order_proof.specs.Reading.{proof_end};
ghost use Rattle.cert_file.specs.Reading.{after, Version, proof_place, certificate_end};
ghost use Rattle.cert_file.specs.Readers.{IsHeadOf, IsWholeProof, IsTextOf, certificate_with};

use crate::body::{Body, read_body};
use crate::certificate::Certificate;
use crate::counts::Counts;
use crate::reading::{read_counts, read_version};
use decimal_text::{BadText, Stop, bad_text};
use map_base::Sequence;
use order_proof::{Proof, read_proof};
use order_values::Orders;
use std::alloc::Global;

/// What stands before the proof.
fn read_head<'a>(
    alloc: Global,
    text: &'a [u8],
    numbers: &mut Vec<i64>,
) -> Result<(Counts, Body, &'a [u8]), Stop>
    ensures follows { Follows (λ x. x.2.now) result (reading after (Version ∷ []) text.now) }
    ensures head { IfOk result (λ x. IsHeadOf x.0 x.1.importance.items x.1.walks.items x.1.orders.items x.1.cost text.now x.2.now) }
{
    let (version, rest) = read_version(text, numbers)?;
    let (counts, rest) = read_counts(rest, numbers)?;
    let (body, rest) = read_body(alloc, version, counts.segs, rest, numbers)?;
    Ok((counts, body, rest))
}

/// The certificate whose text these bytes are.
pub fn read_certificate(alloc: Global, bytes: &[u8]) -> Result<Certificate, BadText>
    ensures certificate { IfOk result (λ c. IsTextOf (plain c) bytes.now) }
    ensures end { EndsAs (λ _. length bytes.now) result (certificate_end bytes.now) }
{
    let mut numbers = Vec::new(alloc);
    match read_head(alloc, bytes, &mut numbers) {
        Ok((counts, body, rest)) => {
            let proof = proof_alone(alloc, bytes.len() - rest.len(), rest)?;
            Ok(certificate_of(counts, body, proof))
        }
        Err(stop) => Err(bad_text(bytes.len(), stop)),
    }
}

/// The proof whose text these bytes are, which stand at a place of a longer text.
fn proof_alone(alloc: Global, place: usize, bytes: &[u8]) -> Result<Proof, BadText>
    requires { place + length bytes.now < 2 ^ 64 }
    ensures proof { IfOk result (λ p. IsWholeProof (plain_proof p) bytes.now) }
    ensures end { EndsAs (λ _. place + length bytes.now) result (proof_place place (length bytes.now) (proof_end bytes.now)) }
{
    match read_proof(alloc, bytes) {
        Ok((proof, used)) => {
            if used == bytes.len() {
                Ok(proof)
            } else {
                Err(BadText::At {
                    at: (place + used) as u64,
                })
            }
        }
        Err(BadText::At { at }) => Err(BadText::At {
            at: place as u64 + at,
        }),
        Err(BadText::NoMemory) => Err(BadText::NoMemory),
    }
}

/// The certificate of these parts.
fn certificate_of(counts: Counts, body: Body, proof: Proof) -> Certificate
    ensures { plain result ≡ certificate_with counts body.importance.items body.walks.items body.orders.items body.cost (plain_proof proof) }
{
    let Body {
        importance,
        walks,
        orders,
        cost,
    } = body;
    Certificate {
        nodes: counts.nodes,
        segs: counts.segs,
        lines: counts.lines,
        importance: Sequence::of(importance),
        walks: Sequence::of(walks),
        orders: Orders {
            lists: Sequence::of(orders),
        },
        cost,
        proof,
    }
}
