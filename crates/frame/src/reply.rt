// One-frame replies: the checked frame, and the trait of all that are read from one.
ghost use Rattle.std.specs.Prelude.{ℕ, ◌≡◌, List, Result, Err, IfOk, IfErr};
ghost use Rattle.frame.specs.declared.refusal.Refusal.{Refusal};
ghost use Rattle.frame.specs.Checks.{frame_check};
ghost use Rattle.frame.specs.Reply.{IsSoundFrame};

use crate::{Refusal, reply_check};

// What is read from a reply of one frame.
pub trait Reply: Sized {
    // That of its request, which byte 2 echoes.
    const COMMAND: u8;

    ghost COMMAND: { ℕ };

    // What a lent buffer says, of any length and any bytes.
    ghost decoded: { List ℕ → Result Self Refusal };

    fn decode(rx_buffer: &[u8]) -> Result<Self, Refusal>
        ensures { result ≡ decoded rx_buffer.now };

    // What the frame check refuses has no values.
    ghost refuses: { (s : List ℕ) (r : Refusal) → frame_check COMMAND s ≡ Err r → decoded s ≡ Err r };
}

// The frame of a sound reply. The whole lent buffer is summed; the values are read from its first 13 bytes.
pub fn sound_frame(rx_buffer: &[u8], command: u8) -> Result<&[u8; 13], Refusal>
    ensures sound { IfOk result (λ frame. IsSoundFrame command rx_buffer.now frame.now) }
    ensures refused { IfErr result (λ refusal. frame_check command rx_buffer.now ≡ Err refusal) }
{
    reply_check(rx_buffer, command)?;
    Ok(rx_buffer.first_chunk().unwrap())
}
