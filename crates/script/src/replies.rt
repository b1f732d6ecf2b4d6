// What stands behind the line number: 'return number, then only on 0: handle and read number for `b`; value or `-` for `g`; key and value, or `-`, for `f`;
// commit number or `-` for `c`'.
ghost use Rattle.std.specs.Prelude.{◌≡◌, [], ◌∷◌, ℕ};
ghost use Rattle.paper.specs.Keys.{Bytes};
ghost use Rattle.paper.specs.Replay.{decimal_of, spaced};
ghost use Rattle.reply.specs.Told.{told_settled, told_begun, told_got, told_scanned, told_committed};
ghost use Rattle.reply.specs.Read.{reply_read};
ghost use Rattle.printing.specs.Shows.{Shows};
ghost use Rattle.script.specs.OnLines.{behind_number};
ghost use Rattle.script.specs.Inside.{Inside};

use printing::Page;
use reply::{Begun, PairLengths, Refusal};

// ---- the fields

// A field of the line: a text as it is, or a number in decimal.
trait Field {
    ghost text: { Self → Bytes };

    fn show(self, page: &mut Page<'_>)
        ensures { Shows page.old page.new (32 ∷ text self) };
}

impl Field for u64 {
    ghost text = { decimal_of };

    fn show(self, page: &mut Page<'_>) {
        page.number(self);
    }
}

impl Field for &[u8] {
    ghost text = { λ x. x.now };

    fn show(self, page: &mut Page<'_>) {
        page.word(self);
    }
}

// The return number alone.
pub fn only(page: &mut Page<'_>, number: u64)
    ensures { Shows page.old page.new (spaced (decimal_of number ∷ [])) }
{
    page.number(number);
    page.text(b"\n");
}

// On 0, with one field.
fn with_field<F: Field>(page: &mut Page<'_>, x: F)
    ensures { Shows page.old page.new (spaced (decimal_of 0 ∷ F.text x ∷ [])) }
{
    page.text(b" 0");
    x.show(page);
    page.text(b"\n");
}

// On 0, with two fields.
fn with_fields<F: Field>(page: &mut Page<'_>, x: F, y: F)
    ensures { Shows page.old page.new (spaced (decimal_of 0 ∷ F.text x ∷ F.text y ∷ [])) }
{
    page.text(b" 0");
    x.show(page);
    y.show(page);
    page.text(b"\n");
}

// On 0, where there is nothing to tell.
fn absent(page: &mut Page<'_>)
    ensures { Shows page.old page.new (spaced (decimal_of 0 ∷ (45 ∷ []) ∷ [])) }
{
    let nothing: &[u8] = b"-";
    with_field(page, nothing);
}

// ---- the replies

// These are no trait, as `host` has one for its values: two of them take the out buffers too, in which what they show stands.
#[tactic(auto, unfolding(crate::specs::OnLines::behind_number, reply::specs::Read::reply_read, paper::specs::Calls::reply_number, paper::specs::Replay::fields_of))]
pub fn settled(page: &mut Page<'_>, reply: Result<(), Refusal>)
    ensures { Shows page.old page.new (behind_number (reply_read (told_settled reply) [] [])) }
{
    only(page, reply::number(reply));
}

#[tactic(auto, unfolding(crate::specs::OnLines::behind_number, reply::specs::Read::reply_read, paper::specs::Calls::reply_number, paper::specs::Replay::fields_of))]
pub fn begun(page: &mut Page<'_>, reply: Result<Begun, Refusal>)
    ensures { Shows page.old page.new (behind_number (reply_read (told_begun reply) [] [])) }
{
    match reply {
        Ok(begun) => with_fields(page, begun.handle, begun.read),
        Err(why) => only(page, why.number()),
    }
}

// The value stands at the front of its buffer.
#[tactic(auto, unfolding(crate::specs::OnLines::behind_number, reply::specs::Read::reply_read, paper::specs::Calls::reply_number, paper::specs::Replay::fields_of))]
pub fn got(page: &mut Page<'_>, reply: Result<Option<usize>, Refusal>, value: &[u8])
    requires { Inside [] value.now (told_got reply) }
    ensures { Shows page.old page.new (behind_number (reply_read (told_got reply) [] value.now)) }
{
    match reply {
        Ok(Some(length)) => with_field(page, &value[..length]),
        Ok(None) => absent(page),
        Err(why) => only(page, why.number()),
    }
}

// Key and value stand at the front of their buffers.
#[tactic(auto, unfolding(crate::specs::OnLines::behind_number, reply::specs::Read::reply_read, paper::specs::Calls::reply_number, paper::specs::Replay::fields_of))]
pub fn scanned(
    page: &mut Page<'_>,
    reply: Result<Option<PairLengths>, Refusal>,
    key: &[u8],
    value: &[u8],
)
    requires { Inside key.now value.now (told_scanned reply) }
    ensures { Shows page.old page.new (behind_number (reply_read (told_scanned reply) key.now value.now)) }
{
    match reply {
        Ok(Some(pair)) => with_fields(page, &key[..pair.key], &value[..pair.value]),
        Ok(None) => absent(page),
        Err(why) => only(page, why.number()),
    }
}

#[tactic(auto, unfolding(crate::specs::OnLines::behind_number, reply::specs::Read::reply_read, paper::specs::Calls::reply_number, paper::specs::Replay::fields_of))]
pub fn committed(page: &mut Page<'_>, reply: Result<Option<u64>, Refusal>)
    ensures { Shows page.old page.new (behind_number (reply_read (told_committed reply) [] [])) }
{
    match reply {
        Ok(Some(number)) => with_field(page, number),
        Ok(None) => absent(page),
        Err(why) => only(page, why.number()),
    }
}
