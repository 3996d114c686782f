//! The net over stations and samples.

ghost use Rattle.std.specs.Prelude.{◌≡◌, ◌^◌, ◌<◌, ◌≤◌, IfOk, IfErr, All, length};
ghost use Rattle.fixed_plane.specs.Plane.{IsInPlane};
ghost use Rattle.track_net.specs.Nets.{AreDistinct, IsNet, net_of_samples, net_points};
ghost use Rattle.track_net.specs.Laws.{HasOwnDirections, IsPlanar, JoinsStations};
ghost use Rattle.track_net.specs.Faults.{HasCause};

use crate::edges::edges_over;
use crate::net::Net;
use crate::thinning::thinned;
use map_base::{LimitFault, Point};
use std::alloc::Global;

/// The net over stations and samples. Its points are the stations in their order, and then, in the order of the
/// samples, each that has no earlier net point nearer than `near`. Two of them have an edge where they are nearer
/// than three times `near` and no third one lies in the disk over them, its rim included. There is a limit where
/// there are more than 100,000 points. All lengths are in decimetres.
///
/// Edges meet only at their ends, those of one point have different directions, and where a run of samples leads
/// from one station to another, each sample at most `near` from the next, the net joins the two.
pub fn net_of(
    alloc: Global,
    stations: &[Point],
    samples: &[Point],
    near: u32,
) -> Result<Net, LimitFault>
    requires distinct { AreDistinct stations.now }
    requires stations_in_plane { All IsInPlane stations.now }
    requires samples_in_plane { All IsInPlane samples.now }
    requires near_low { 20 ≤ near }
    requires near_high { near ≤ 20000 }
    ensures net { IfOk result (λ net. net ≡ net_of_samples near stations.now samples.now) }
    ensures few { IfOk result (λ net. length net.points ≤ 100000) }
    ensures cause { IfErr result (λ fault. HasCause (length (net_points near stations.now samples.now)) fault) }

    // Laws of the net.
    ensures planar { IfOk result IsPlanar }
    ensures directions { IfOk result HasOwnDirections }
    ensures joined { IfOk result (JoinsStations near stations.now samples.now) }
{
    let points = thinned(alloc, stations, samples, near)?;
    let edges = edges_over(alloc, &points, near)?;
    Ok(Net { points, edges })
}
