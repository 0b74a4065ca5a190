// Tracks for C.
ghost use Rattle.std.specs.Prelude.{◌≡◌};
ghost use Rattle.track.specs.Track.{no_point, followed};
ghost use Rattle.desk.specs.Tracks.{track_numbers};

use crate::HostTrack;
use crate::answers::{accepted, refused};
use caller::figure::host_figure;
use packed::table::Worths;
use track::HostPoint;
use track::follow::follow;

// Behind the last observation, and in a refusal: all zero.
fn no_point() -> HostPoint
    ensures { result ≡ no_point }
{
    let none = host_figure(None);
    HostPoint {
        latitude: none,
        longitude: none,
        seconds: none,
    }
}

pub fn esk_report_track(text: &[u8]) -> HostTrack
    ensures { result ≡ track_numbers (followed text.now) }
{
    match follow(&Worths::new(), text) {
        Ok(track) => {
            let points = track.points;
            HostTrack {
                answer: accepted(0),
                count: track.count,
                spare: 0,
                points,
            }
        }
        Err(r) => {
            let none = no_point();
            HostTrack {
                answer: refused(r),
                count: 0,
                spare: 0,
                points: [none; 8],
            }
        }
    }
}
