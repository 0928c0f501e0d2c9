// A stream cut into frames of 512 bytes, each with its number, the number of frames and a check. Nothing here knows what
// the stream says. A stream to write is two slices everywhere, as `write_frames` is lent them: the head, and the heap's
// bytes behind it. An image comes with a place: the contracts say by `overwrite at` what of it stays.
#![tactic(auto)]

ghost use Rattle.std.specs.Prelude.{◌≡◌, ◌+◌, ◌*◌, ◌/◌, ◌^◌, ◌<◌, ◌≤◌, ◌++◌, length, drop, slice_index};
ghost use Rattle.layout.specs.Bytes.{overwrite};
ghost use Rattle.framing.specs.Frames.{padded, check_of, frame_of, cut_from, stream_of, frame_right, frames_right, write_frames};

// The greatest length of a stream: 65,535 frames.
const LONGEST: usize = 33029640;

// The byte at a place of a stream that is made of two parts, 0 behind its end.
fn stream_byte(head: &[u8], body: &[u8], at: usize) -> u8
    ensures { result ≡ slice_index (head.now ++ body.now) at }
{
    if at < head.len() {
        return head[at];
    }
    let rest = at - head.len();
    if rest < body.len() {
        return body[rest];
    }
    0
}

// The check of the frame at a place: the sum of its first 127 words.
fn check_at(image: &[u8], at: usize) -> u32
    requires { at + 508 ≤ length image.now }
    ensures { result ≡ check_of (drop at image.now) }
{
    let mut sum: u32 = 0;
    for i in 0..127 {
        sum = sum.wrapping_add(layout::read_u32(image, at + 4 * i));
    }
    sum
}

// The stream's 504 bytes from a place on, written at a place of the image.
fn fill(image: &mut [u8], to: usize, head: &[u8], body: &[u8], from: usize)
    requires { (to + 504 ≤ length image.old) × (from + 504 < 2 ^ 64) }
    ensures { image.new ≡ overwrite to (padded 504 (drop from (head.now ++ body.now))) image.old }
{
    for i in 0..504 {
        image[to + i] = stream_byte(head, body, from + i);
    }
}

// One frame of the stream, written at a place of the image. `count` stands in each frame, and is no buffer's length.
fn write_frame(
    image: &mut [u8],
    at: usize,
    number: u32,
    count: u32,
    head: &[u8],
    body: &[u8],
    from: usize,
)
    requires { (at + 512 ≤ length image.old) × (from + 504 < 2 ^ 64) }
    ensures { image.new ≡ overwrite at (frame_of number count (drop from (head.now ++ body.now))) image.old }
{
    layout::write_u16(image, at, number);
    layout::write_u16(image, at + 2, count);
    fill(image, at + 4, head, body, from);
    let check = check_at(image, at);
    layout::write_u32(image, at + 508, check);
}

// So many frames of the stream, written from the image's first byte on.
fn put_frames(image: &mut [u8], head: &[u8], body: &[u8], count: usize)
    requires { (512 * count ≤ length image.old) × (count < 65536) }
    ensures { image.new ≡ overwrite 0 (cut_from count 0 count (head.now ++ body.now)) image.old }
{
    for b in 0..count {
        write_frame(image, 512 * b, b as u32, count as u32, head, body, 504 * b);
    }
}

// The stream of two parts, written as frames from the image's first byte on; bytes behind the frames stay. The answer
// is how many bytes were written. There is none, and nothing is written, where the image has no room or the stream is
// longer than the longest.
pub fn write_frames(image: &mut [u8], head: &[u8], body: &[u8]) -> Option<usize>
    ensures { record { image = image.exit.now; answer = result } ≡ write_frames image.entry.now (head.now ++ body.now) }
{
    if LONGEST < head.len() {
        return None;
    }
    if LONGEST - head.len() < body.len() {
        return None;
    }
    let count = (head.len() + body.len()).div_ceil(504);
    if image.len() < 512 * count {
        return None;
    }
    put_frames(image, head, body, count);
    Some(512 * count)
}

// The byte at a place of an image's stream, 0 behind its end.
pub fn stream_at(image: &[u8], at: usize) -> u8
    ensures { result ≡ slice_index (stream_of image.now) at }
{
    let frame = at / 504;
    if image.len() / 512 <= frame {
        return 0;
    }
    image[512 * frame + 4 + at % 504]
}

// The bytes from a place of the stream on, as many as there is room for.
pub fn copy_stream(image: &[u8], from: u32, out: &mut [u8])
    ensures { out.new ≡ padded (length out.old) (drop from (stream_of image.now)) }
{
    let start = from as usize;
    for (i, byte) in out.iter_mut().enumerate() {
        *byte = stream_at(image, start + i);
    }
}

// Whether the frame at a place has its number, the number of frames and its check.
fn is_right(image: &[u8], at: usize, number: usize, count: usize) -> bool
    requires { at + 512 ≤ length image.now }
    ensures { result ≡ frame_right number count (drop at image.now) }
{
    if layout::read_u16(image, at) as usize != number {
        return false;
    }
    if layout::read_u16(image, at + 2) as usize != count {
        return false;
    }
    layout::read_u32(image, at + 508) == check_at(image, at)
}

// Whether every frame is right.
pub fn all_right(image: &[u8]) -> bool
    ensures { result ≡ frames_right (length image.now / 512) 0 (length image.now / 512) image.now }
{
    let count = image.len() / 512;
    for b in 0..count {
        if !is_right(image, 512 * b, b, count) {
            return false;
        }
    }
    true
}
