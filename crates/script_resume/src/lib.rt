// A guest that is moved between hosts (document 02, T-11): a script goes on with the board and the pair of an image, or with new ones, and there is an image after it.

#![tactic(auto)]

ghost use Rattle.std.specs.Prelude.{◌≡◌, IfOk};
ghost use Rattle.io.specs.Counts.{IsPrefixLen};
ghost use Rattle.image.specs.Restore.{chips};
ghost use Rattle.script_machine.specs.Machine.{machine_of};
ghost use Rattle.script_resume.specs.Resumed.{started, start_of, Goes, head_size};

use script_machine::Machine;
use script_print::SPACE;
use types::Refusal;

// The first byte of every image: the tag of its group.
const TAG: u8 = 0x80;

// The length of every image.
pub const IMAGE: usize = image_format::IMAGE_SIZE;

// How many bytes the text of a run and the image after it have.
#[derive(Clone, Copy, Debug, PartialEq, Eq, Hash)]
pub struct Resumed {
    pub end: usize,
    pub size: usize,
}

// The machine of an image: its board and its pair, all else new; without an image, a new machine, and an image that isn't taken leaves a new one too.
pub fn start(image: &[u8], machine: &mut Machine) -> Result<(), Refusal>
    ensures answer { result ≡ started image.now }
    ensures machine_after { machine_of machine.new ≡ start_of image.now }
{
    *machine = Machine::new();
    if image.is_empty() {
        return Ok(());
    }
    match image::restore(
        image,
        &mut machine.board_ioapic,
        &mut machine.board_apic,
        &mut machine.pic,
    ) {
        Ok(()) => {
            machine.vm.used.pic = true;
            Ok(())
        }
        Err(why) => Err(why),
    }
}

// Goes on from an image with a script: what is printed goes to the start of `text`, the image after it to `after`. An image that isn't taken is refused with 10, and nothing is put.
pub fn go_on(
    image: &[u8],
    script: &[u8],
    machine: &mut Machine,
    text: &mut [u8; SPACE],
    after: &mut [u8; IMAGE],
) -> Result<Resumed, Refusal>
    ensures goes { Goes image.now script.now text.old text.new after.old after.new (machine_of machine.new) (chips machine.new.board_ioapic machine.new.board_apic machine.new.pic) result }
    ensures prefix_len { IfOk result (λ resumed. IsPrefixLen resumed.end text.new) }
    ensures prefix_len_2 { IfOk result (λ resumed. IsPrefixLen resumed.size after.new) }
{
    start(image, machine)?;
    let end = script_print::print_from(machine, script, text);
    // The image fits its buffer, so that it is saved.
    let _saved = image::save(
        &machine.board_ioapic,
        &machine.board_apic,
        &machine.pic,
        after,
    );
    let size = IMAGE;
    Ok(Resumed { end, size })
}

// How many bytes of the program's input are an image.
pub fn head_size(input: &[u8]) -> usize
    ensures value { result ≡ head_size input.now }
    ensures prefix_len { IsPrefixLen result input.now }
{
    if input.is_empty() || input[0] != TAG {
        return 0;
    }
    if input.len() < IMAGE {
        return input.len();
    }
    IMAGE
}
