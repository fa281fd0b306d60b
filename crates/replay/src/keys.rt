// The bytes of a key or a value.
use crate::fault::Fault;
use crate::limits;
use script::words::ByteString;

// The bytes of a byte string, decoded into the room that is lent.
pub fn read<'a>(word: ByteString, room: &'a mut [u8; limits::BYTES]) -> Result<&'a [u8], Fault> {
    if room.len() < word.len() {
        return Err(Fault::NotTaken);
    }
    let n = word.decode(room);
    Ok(&room[..n])
}
