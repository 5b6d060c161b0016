//! Input until its end.

ghost use Rattle.std.specs.Prelude.{true, ◌≡◌};
ghost use Rattle.vp_io.specs.Counts.{HasCause};
ghost use Rattle.machine_devices.specs.Devices.{SeesEnd, TakesByte, TellsEnd};

use vp_io::{Failed, Source};

/// Whether the end of the input was seen.
#[derive(Debug, Drop)]
pub struct Reader {
    pub ended: bool,
}

impl Reader {
    /// The next byte, or none where the end was seen; a source that has told its end isn't asked again.
    pub fn next_byte<S: Source>(&mut self, source: &mut S) -> Result<Option<u8>, Failed>
        ensures bytes { TakesByte (S.left source.old) (S.left source.new) result }
        ensures end { TellsEnd self.new.ended result }
        ensures sees { SeesEnd self.old.ended self.new.ended (S.ends source.old) (S.ends source.new) (S.left source.new) }
        ensures after_end { self.old.ended ≡ true → source.new ≡ source.old }
        ensures cause { HasCause (S.faults source.old) (S.faults source.new) result }
    {
        if self.ended {
            return Ok(None);
        }
        let mut into = [0u8; 1];
        if source.read(&mut into)? == 0 {
            self.ended = true;
            return Ok(None);
        }
        Ok(Some(into[0]))
    }
}
