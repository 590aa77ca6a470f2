// Handing a finished text over to a lent buffer: how every operation ends that writes into one.
#![tactic(auto)]

ghost use Rattle.apportionment.specs.Refusals.{accepted};
ghost use Rattle.handover.specs.Handover.{handed_in, WritingIs};

use apportionment::refusals::Refusal;

// Copies a finished text to the front of the buffer, whose later bytes stay, and answers its length; 31 exactly if the text is longer, and
// then every byte stays.
pub fn hand_over(text: &[u8], out: &mut [u8]) -> Result<usize, Refusal>
    ensures { WritingIs accepted 0 text.now out.old (handed_in result) out.new }
{
    if text.len() <= out.len() {
        out[..text.len()].copy_from_slice(text);
        return Ok(text.len());
    }
    Err(Refusal::BufferTooShort)
}
