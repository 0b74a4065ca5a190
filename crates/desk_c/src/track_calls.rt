// Tracks for C.
ghost use Rattle.std.specs.Prelude.{◌≡◌};
ghost use Rattle.track.specs.Track.{followed};
ghost use Rattle.desk.specs.Tracks.{track_numbers};

use desk::HostTrack;

#[unsafe(no_mangle)]
pub extern "C" fn esk_report_track(text: &[u8]) -> HostTrack
    ensures { result ≡ track_numbers (followed text.now) }
{
    desk::esk_report_track(text)
}
