// Numbers of an image's stream, the lowest byte first; a byte behind the stream's end counts as 0.
ghost use Rattle.std.specs.Prelude.{◌≡◌, ◌+◌, ◌<◌, ◌^◌, take, drop};
ghost use Rattle.layout.specs.Bytes.{number};
ghost use Rattle.framing.specs.Frames.{stream_of};

// The number of the two bytes at a place of the stream.
pub(crate) fn read_pair(image: &[u8], at: usize) -> u32
    requires { at + 2 < 2 ^ 32 }
    ensures { (result ≡ number (take 2 (drop at (stream_of image.now)))) × (result < 65536) }
{
    let low = u32::from(framing::stream_at(image, at));
    let high = u32::from(framing::stream_at(image, at + 1));
    low + 256 * high
}

// The number of the four bytes at a place of the stream: two pairs. The readers of `layout` don't serve, since a frame's
// end can lie between two bytes of the stream; one generic reader would need a buffer, and is no plainer.
pub(crate) fn read_quad(image: &[u8], at: usize) -> u32
    requires { at + 4 < 2 ^ 32 }
    ensures { result ≡ number (take 4 (drop at (stream_of image.now))) }
{
    let low = read_pair(image, at);
    let high = read_pair(image, at + 2);
    low + 65536 * high
}
