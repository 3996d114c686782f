//! A law of stretch paths.

ghost use Rattle.std.specs.Prelude.{ℕ, List};
ghost use Rattle.map_base.specs.declared.point.Point.{Point};
ghost use Rattle.track_net.specs.Nets.{NetParts};
ghost use Rattle.net_paths.specs.Choices.{VisitsOnce};

/// A law: a stretch path over a net visits no point twice.
pub fn stretch_path_visits_once()
    ensures { (near : ℕ) (corridor : List Point) (net : NetParts) (from to : ℕ) (numbers : List ℕ) → VisitsOnce near corridor net from to numbers }
{}
