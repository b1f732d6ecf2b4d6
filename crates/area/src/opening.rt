// Opening: the images that a host lends, one after the other in one slice, with the length of each: the C interface has them so.
ghost use Rattle.std.specs.Prelude.{◌≡◌, true, ◌+◌, ◌*◌, ◌≤◌, length, drop};
ghost use Rattle.paper.specs.Lists.{total};
ghost use Rattle.paper.specs.Calls.{open_runs, images_in};
ghost use Rattle.raw.specs.Bytes.{over};
ghost use Rattle.layout.specs.Codec.{sized, plain};
ghost use Rattle.layout.specs.Layout.{images_stream};
ghost use Rattle.area.specs.Opening.{open_answer, clock_of, image_in, FitTold, Total, good_images, runs_in};

use run::BadImage;

// The first opening image that is not good, by its place from 1.
#[derive(Clone, Copy, Debug, PartialEq, Eq)]
pub struct BadRun {
    pub place: usize,
    pub why: BadImage,
}

// The image of n bytes in front of some bytes, and the bytes behind it; one 'that ends past those bytes is cut, and so handed on as no bytes'.
fn split_image(bytes: &[u8], n: u64) -> (&[u8], &[u8])
    ensures image { result.0.now ≡ image_in bytes.now n }
    ensures behind { result.1.now ≡ drop n bytes.now }
{
    bytes.split_at_checked(n as usize).unwrap_or((b"", b""))
}

// The largest timestamp among the records of all images, 0 if there are none: 'the clock at opening', where they are all good.
pub fn open_check(images: &[u8], lengths: &[u64]) -> Result<u64, BadRun>
    ensures { open_answer result ≡ clock_of (open_runs 1 (images_in images.now lengths.now)) }
{
    let mut rest = images;
    let mut clock: u64 = 0;
    for (i, n) in lengths.iter().enumerate() {
        let (image, behind) = split_image(rest, *n);
        // What a closure under `map_err` would make of the error stays unknown to the proof.
        match run::image::verdict(image) {
            Ok(latest) => clock = clock.max(latest),
            Err(why) => return Err(BadRun { place: i + 1, why }),
        }
        rest = behind;
    }
    Ok(clock)
}

// How many bytes the images have together.
pub fn images_total(images: &[u8], lengths: &[u64]) -> usize
    ensures { Total images.now lengths.now result }
{
    let mut rest = images;
    let mut sum = 0;
    for n in lengths {
        let (image, behind) = split_image(rest, *n);
        sum += image.len();
        rest = behind;
    }
    sum
}

// 'Opening runs over their limits': 16 of them, and so many bytes together.
pub fn images_fit(images: &[u8], lengths: &[u64], area: u64) -> bool
    ensures { FitTold images.now lengths.now area result }
{
    lengths.len() <= 16 && images_total(images, lengths) as u64 <= area
}

// ---- into the run area

// Writes good images into the run area at `at`, the last of them first, each with its length in front.
pub fn put_images(state: &mut [u8], at: usize, images: &[u8], lengths: &[u64])
    requires { (good_images images.now lengths.now ≡ true) × (at + (8 + (8 * length lengths.now + total length (images_in images.now lengths.now))) ≤ length state.old) }
    ensures { state.new ≡ over state.old at (images_stream.put (runs_in images.now lengths.now)) }
{
    let mut end = images_total(images, lengths);
    raw::put_number::<8>(state, at, (8 * lengths.len() + end) as u64);
    let mut to = at + 8;
    for n in lengths.iter().rev() {
        let from = end - *n as usize;
        raw::put_sized::<8>(state, to, &images[from..end]);
        to += 8 + (end - from);
        end = from;
    }
}
