// A new record.
ghost use Rattle.std.specs.Prelude.{◌≡◌};
ghost use Rattle.device.specs.Create.{fixed};
ghost use Rattle.callbytes.specs.Calls.{call_outcome, create_on};

use answers::answer_number;
use device::Fixed;
use recordbytes::{in_record, store};

// Makes a new record for the packet size `packet_size`, the max LUN `max_lun` and an IO buffer of `size` bytes. 01's refusals come first,
// and then 10 where `record` does not have the length of a record.
pub fn create(record: &mut [u8], packet_size: u32, max_lun: u8, size: u32) -> u32
    ensures { call_outcome result «record».new ≡ create_on «record».old (fixed packet_size max_lun size) }
{
    let fixed = Fixed {
        packetsize: packet_size as usize,
        maxlun: max_lun,
        size: size as usize,
    };
    if let Err(why) = device::create::create(fixed) {
        return answer_number(why) as u32;
    }
    if record.len() != in_record::SIZE {
        return 10;
    }
    store::new(record, fixed);
    0
}
