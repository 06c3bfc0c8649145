// The script: bytes and little-endian numbers, taken from standard input as they are asked for.
ghost use Rattle.std.specs.Prelude.{◌≤◌, IfOk};

use base_types::NotAChannel;
use std::io::Read;

// The highest size and the highest room.
pub const MOST: usize = 600;

// An end inside a command, or a part of one that is not as it must be.
#[derive(Clone, Copy)]
pub struct ScriptError;

// A switch of a channel is its number, and another number is no switch.
impl From<NotAChannel> for ScriptError {
    fn from(_refusal: NotAChannel) -> ScriptError {
        ScriptError
    }
}

#[derive(Drop)]
pub struct Script<R> {
    from: R,
}

impl<R: Read> Script<R> {
    pub fn new(from: R) -> Script<R> {
        Script { from }
    }

    // The letter of the next command, if there is one.
    pub fn letter(&mut self) -> Option<u8> {
        self.u8().ok()
    }

    pub fn u8(&mut self) -> Result<u8, ScriptError> {
        Ok(u8::from_le_bytes(self.array()?))
    }

    pub fn u16(&mut self) -> Result<u16, ScriptError> {
        Ok(u16::from_le_bytes(self.array()?))
    }

    pub fn u32(&mut self) -> Result<u32, ScriptError> {
        Ok(u32::from_le_bytes(self.array()?))
    }

    pub fn i8(&mut self) -> Result<i8, ScriptError> {
        Ok(i8::from_le_bytes(self.array()?))
    }

    pub fn i32(&mut self) -> Result<i32, ScriptError> {
        Ok(i32::from_le_bytes(self.array()?))
    }

    pub fn switch(&mut self) -> Result<bool, ScriptError> {
        match self.u8()? {
            0 => Ok(false),
            1 => Ok(true),
            _ => Err(ScriptError),
        }
    }

    // A size, a room or a count, which may be as high as `most`.
    pub fn size(&mut self, most: usize) -> Result<usize, ScriptError>
        ensures { IfOk result (λ size. size ≤ most) }
    {
        let size = usize::from(self.u16()?);
        if most < size {
            return Err(ScriptError);
        }
        Ok(size)
    }

    // A size, and as many bytes, which are put into the front of the space.
    pub fn bytes<'a>(&mut self, space: &'a mut [u8]) -> Result<&'a [u8], ScriptError> {
        let size = self.size(space.len())?;
        let bytes = &mut space[..size];
        self.fill(bytes)?;
        Ok(bytes)
    }

    // The next bytes, taken in one call. The values of an item are then read from its bytes, as from a script of their own: standard input has no
    // buffer, and a call of the system for each value would take most of a run's time (DECISIONS 204).
    pub fn array<const N: usize>(&mut self) -> Result<[u8; N], ScriptError> {
        let mut bytes = [0; N];
        self.fill(&mut bytes)?;
        Ok(bytes)
    }

    // A read that fails ends the script.
    pub fn fill(&mut self, bytes: &mut [u8]) -> Result<(), ScriptError> {
        self.from.read_exact(bytes).map_err(|_| ScriptError)
    }
}
