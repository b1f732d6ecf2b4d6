// The check of packed records, and the verdict on an image.
ghost use Rattle.std.specs.Prelude.{◌≡◌, ◌<◌, length, take};
ghost use Rattle.paper.specs.Image.{mark, verdict};
ghost use Rattle.run.specs.Records.{KeyIn};
ghost use Rattle.run.specs.Checks.{Risen, checked, told};

use crate::tally::Tally;
use crate::{BadImage, record};
use key::{KeyStamp, Place};

// The place of a version that stands before all others with a key that isn't empty: an empty key at the last stamp.
fn before_all() -> Place
    ensures { result ≡ record { ks = 0; ke = 0; time = 0; vs = 0; ve = 0 } }
{
    Place {
        ks: 0,
        ke: 0,
        time: KeyStamp::TS_RANGE_END,
        vs: 0,
        ve: 0,
    }
}

// The record that follows the last one, if it is whole and the last one's version stands before its version.
fn risen_at(records: &[u8], last: Place) -> Option<Place>
    requires { KeyIn records.now last × (last.ve < length records.now) }
    ensures { Risen records.now last (length records.now) result }
{
    let place = record::record_at(records, last.ve)?;
    let key = &records[place.ks..place.ke];
    record::is_before(records, last, key, KeyStamp::new(place.time)).then_some(place)
}

// What is known of the records, if the bytes are the records of a run, strictly rising, with no empty key: one pass, in which
// each key is compared with the one before it.
#[tactic(auto, using(crate::proofs::Checking::no_run))]
pub fn records_check(records: &[u8]) -> Option<Tally>
    ensures { result ≡ checked records.now }
{
    let mut tally = Tally::none();
    let mut last = before_all();
    // An iterator would hand out each place, but where the next one starts is in the last one already.
    while last.ve < records.len() {
        last = risen_at(records, last)?;
        tally = tally.with_record(last.time);
    }
    Some(tally)
}

// The verdict on an image, with the largest timestamp among its records: 'mark right, version not 1, rest unread' is foreign,
// and what is cut, overlong, unsorted, with an empty key or a wrong mark is broken.
#[tactic(auto, using(crate::proofs::Told::unmarked))]
pub fn verdict(image: &[u8]) -> Result<u64, BadImage>
    ensures { result ≡ told (verdict image.now) }
{
    if image.starts_with(b"RUN") {
        marked(image)
    } else {
        Err(BadImage::Broken)
    }
}

// The verdict on an image whose mark is right.
fn marked(image: &[u8]) -> Result<u64, BadImage>
    requires { take 3 image.now ≡ mark }
    ensures { result ≡ told (verdict image.now) }
{
    if image.len() < 5 {
        return Err(BadImage::Broken);
    }
    if raw::number::<2>(image, 3) != 1 {
        return Err(BadImage::Foreign);
    }
    if image.len() < 9 {
        return Err(BadImage::Broken);
    }
    let tally = records_check(&image[9..]).ok_or(BadImage::Broken)?;
    if raw::number::<4>(image, 5) != tally.count as u64 {
        return Err(BadImage::Broken);
    }
    Ok(tally.latest)
}
