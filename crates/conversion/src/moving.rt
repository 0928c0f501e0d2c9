// An image moved to the other form: its own bytes are tested, and then the state that it says is written.
ghost use Rattle.std.specs.Prelude.{◌≡◌, true, length, drop};
ghost use Rattle.accounts.specs.declared.Accounts.{Accounts};
ghost use Rattle.model.specs.Consistent.{allowed};
ghost use Rattle.framing.specs.Frames.{padded, stream_of};
ghost use Rattle.image_model.specs.Stream.{head_length};
ghost use Rattle.image_model.specs.Reading.{form_of};
ghost use Rattle.image_model.specs.Answers.{imaged, image_refusal_number};
ghost use Rattle.image_model.specs.Images.{write_image};
ghost use Rattle.image.specs.Parsing.{shape_parts};
ghost use Rattle.conversion.specs.Moves.{moved, move_up, move_down};
ghost use Rattle.conversion.specs.Steps.{form_from, form_to, other_form, rewritten};

use crate::Direction;
use accounts::Accounts;
use image_model::{Form, ImageRefusal};
use layout::GREATEST_HEAP;
use model::Refusal;

// Bytes for the longest heap.
fn heap_space() -> [u8; GREATEST_HEAP] {
    [0u8; GREATEST_HEAP]
}

// The number of the form that is moved from, up or down.
fn number_from(way: Direction) -> u32
    ensures { result ≡ (form_from way).number }
{
    match way {
        Direction::Up => 1,
        Direction::Down => 2,
    }
}

// The image of a heap and its accounts in the form that is moved to, where they are consistent.
fn write_to(
    out: &mut [u8],
    heap: &[u8],
    accounts: Accounts,
    way: Direction,
) -> Result<usize, ImageRefusal>
    ensures { imaged out.new result ≡ write_image (form_to way) out.old heap.now accounts }
{
    match way {
        Direction::Up => image::write_image(out, heap, accounts),
        Direction::Down => image::write_form_1(out, heap, accounts),
    }
}

// The heap of an image is copied out, as many bytes as there is room for, and written with the accounts. The writer
// tests whether they are consistent: what it refuses by 2 is refused by 26 here. `out`, `accounts` and `way` are handed
// on as they came by this and `rewrite`; a struct of them would be made once and opened once, and is no plainer.
fn rewrite_in(
    image: &[u8],
    out: &mut [u8],
    room: &mut [u8],
    accounts: Accounts,
    way: Direction,
) -> Result<usize, ImageRefusal>
    requires { allowed (length room.old) ≡ true }
    ensures { imaged out.new result ≡ rewritten (form_to way) out.old
        (padded (length room.old) (drop (head_length (form_of image.now)) (stream_of image.now))) accounts }
{
    let place = image::heap_place(image);
    framing::copy_stream(image, place.start, room);
    let answer = write_to(out, room, accounts, way);
    let Err(refusal) = answer else {
        return answer;
    };
    let ImageRefusal::Call(call) = refusal else {
        return answer;
    };
    match call {
        Refusal::Inconsistent => Err(ImageRefusal::Unsound),
        _ => answer,
    }
}

// The same of a heap of so many bytes, which the image has in pieces; in one piece it stands on the stack.
fn rewrite(
    image: &[u8],
    out: &mut [u8],
    size: usize,
    accounts: Accounts,
    way: Direction,
) -> Result<usize, ImageRefusal>
    requires { allowed size ≡ true }
    ensures { imaged out.new result ≡ rewritten (form_to way) out.old
        (padded size (drop (head_length (form_of image.now)) (stream_of image.now))) accounts }
{
    let mut room = heap_space();
    rewrite_in(image, out, &mut room[..size], accounts, way)
}

// Why an image is refused that is not of the form to move from, by what its own bytes are: 21 and 22 come before 23.
fn other_form(shape: Result<(Form, usize), ImageRefusal>) -> ImageRefusal
    ensures { (k : Accounts) → image_refusal_number result ≡ other_form (shape_parts shape k).refusal }
{
    let Err(refusal) = shape else {
        return ImageRefusal::FormNumber;
    };
    match refusal {
        ImageRefusal::Call(_) | ImageRefusal::ImageLength | ImageRefusal::FrameWrong => refusal,
        _ => ImageRefusal::FormNumber,
    }
}

// An image moved up or down.
fn moved(image: &[u8], out: &mut [u8], way: Direction) -> Result<usize, ImageRefusal>
    ensures { imaged out.new result ≡ moved (form_from way) (form_to way) image.now out.old }
{
    let parsed = image::parse_image(image);
    let accounts = parsed.accounts;
    let shape = parsed.shape;
    let form = image::form_of(image);
    if form.number != number_from(way) {
        return Err(other_form(shape));
    }
    let (_, size) = shape?;
    rewrite(image, out, size, accounts, way)
}

// The image in form 2 of the state that an image of form 1 says, at the front of the lent bytes; the others stay, and all of them where it is refused.
pub fn move_up(image: &[u8], out: &mut [u8]) -> Result<usize, ImageRefusal>
    ensures { imaged out.new result ≡ move_up image.now out.old }
{
    moved(image, out, Direction::Up)
}

// The image in form 1 of the state that an image of form 2 says, which not every state fits.
pub fn move_down(image: &[u8], out: &mut [u8]) -> Result<usize, ImageRefusal>
    ensures { imaged out.new result ≡ move_down image.now out.old }
{
    moved(image, out, Direction::Down)
}
