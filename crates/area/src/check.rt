// The runs' part of the state check: the active run, the run area, and the rule that ties them together.
ghost use Rattle.std.specs.Prelude.{◌≡◌, true, [], ◌+◌, ◌≤◌, ◌<◌, length, MatchOption};
ghost use Rattle.std.proofs.Math.Option.{none};
ghost use Rattle.layout.specs.Codec.{sized, plain};
ghost use Rattle.layout.specs.Layout.{images_whole};
ghost use Rattle.area.specs.Told.{Split, ActiveTold, AreaTold, images_told, others_of, with_run, newer_by};

use run::tally::Tally;

// The active run: how many bytes its records take, and what is known of its versions.
#[derive(Clone, Copy, Debug, PartialEq, Eq)]
pub struct Active {
    pub used: usize,
    pub tally: Tally,
}

// What is known of the frozen and opening runs: how many there are, and the latest timestamp among their versions, if they have one.
#[derive(Clone, Copy, Debug, PartialEq, Eq)]
pub struct Others {
    pub count: usize,
    pub latest: Option<u64>,
}

// The bytes behind a number of 64 bits, as many as it says, and what follows them; none where there are not so many.
pub(crate) fn split_sized(bytes: &[u8]) -> Option<(&[u8], &[u8])>
    ensures { MatchOption result ((sized 8 plain).get bytes.now ≡ none) (λ p. Split bytes.now p.0.now p.1.now) }
{
    let (size, rest) = bytes.split_at_checked(8)?;
    rest.split_at_checked(raw::number::<8>(size, 0) as usize)
}

// ---- the active run

// The active run's part of the state: 'every .. version at or below the clock; runs sound', within its room. None where it breaks a rule.
pub fn active_check(part: &[u8], clock: u64) -> Option<Active>
    requires { 8 ≤ length part.now }
    ensures { ActiveTold part.now clock result }
{
    let (records, _) = split_sized(part)?;
    let tally = run::image::records_check(records)?;
    if clock < tally.latest {
        return None;
    }
    Some(Active {
        used: records.len(),
        tally,
    })
}

// ---- the run area

impl Others {
    // Of no run.
    fn none() -> Self
        ensures { result ≡ others_of [] }
    {
        Self {
            count: 0,
            latest: None,
        }
    }

    // Of one run more, with the latest timestamp among its versions, if it has one.
    fn with_run(self, latest: Option<u64>) -> Self
        requires { self.count < 18446744073709551615 }
        ensures { result ≡ with_run self latest }
    {
        Self {
            count: self.count + 1,
            latest: self.latest.max(latest),
        }
    }
}

// The images of the run area, each with its length in front: one pass, in which each is judged. None where one is not good.
fn images_check(images: &[u8]) -> Option<Others>
    ensures { result ≡ images_told (images_whole.parse images.now) }
{
    let mut rest = images;
    let mut others = Others::none();
    // A `for` over the images would not tell whether it ended at the last one or at one that is cut.
    while !rest.is_empty() {
        let (image, behind) = split_sized(rest)?;
        let latest = run::image::verdict(image).ok()?;
        others = others.with_run((9 < image.len()).then_some(latest));
        rest = behind;
    }
    Some(others)
}

// The run area's part of the state: good images, 'every .. version at or below the clock', at most 16 of them, and together within their room, in which
// the lengths in front of them do not count. None where it breaks a rule.
pub fn area_check(part: &[u8], clock: u64) -> Option<Others>
    requires { 136 ≤ length part.now }
    ensures { AreaTold part.now clock result }
{
    let (images, _) = split_sized(part)?;
    let others = images_check(images)?;
    if Some(clock) < others.latest {
        return None;
    }
    if 16 < others.count {
        return None;
    }
    if part.len() - 136 + 8 * others.count < images.len() {
        return None;
    }
    Some(others)
}

// ---- the tie

// 'Active versions newer than all in other runs'.
pub fn newer(tally: Tally, others: Others) -> bool
    ensures { result ≡ newer_by tally others }
{
    tally.count == 0 || others.latest < Some(tally.earliest)
}
