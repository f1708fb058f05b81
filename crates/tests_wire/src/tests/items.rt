use px_tag::{Mem, TagFault, TagReader, TagWriter, one_spelling};
use std::alloc::Global;

// One item of each kind that clients aren't sent or don't send.
const ITEMS: &[u8] =
    b"B\xfeR\0\0\0\0\0\0\x06\x82r\xff\xff\xff\xff\xff\xff\xff\xfex\0\0\0\x02\0\xffU\0\0\0\0\0\0\x08\x23V\0\x01\0\0";

// An item that isn't read is still there: two bytes where three should be, and another tag.
fn reads(reader: &mut TagReader) -> bool {
    reader.byte() == Ok(254)
        && reader.wide() == Ok(0x682)
        && reader.signed() == Ok(-2)
        && reader.arbitrary_of(3) == Err(TagFault::BadValue { at: 20 })
        && reader.text() == Err(TagFault::WrongTag { at: 20 })
        && reader.arbitrary() == Ok(b"\0\xff".as_slice())
        && reader.usec() == Ok(0x823)
        && reader.end() == Err(TagFault::Left { at: 36 })
}

fn write(writer: &mut TagWriter) -> Mem<()> {
    writer.byte(254)?;
    writer.wide(0x682)?;
    writer.signed(-2)?;
    writer.arbitrary(b"\0\xff")?;
    writer.usec(0x823)?;
    writer.volume(0x10000)
}

fn writes(alloc: Global) -> bool {
    let mut writer = TagWriter::new(alloc);
    write(&mut writer).is_ok() && writer.finish().as_slice() == ITEMS
}

#[test]
fn items_are_read_and_written(rt: HostRuntime) {
    one_spelling();
    assert!(rt; reads(&mut TagReader::new(ITEMS)) && writes(rt.alloc()));
}
