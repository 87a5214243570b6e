// How much the program reads of a file and of a list of records.
ghost use Rattle.std.specs.Prelude.{◌≡◌, length, replicate};
ghost use Rattle.console.specs.Program.{sheet_room, record_room};

// One byte more than the longest sheet, so that a longer file is refused for its length.
const SHEET_ROOM: usize = 22_097;

// One byte more than the longest list of records, so that a longer one is refused.
const RECORD_ROOM: usize = 40_961;

// Zeros to read a sheet into.
// Kept: beside `record_buffer`, since each promises its own room; with a const parameter every caller would name the number.
pub fn sheet_buffer() -> [u8; SHEET_ROOM]
    ensures value { result ≡ replicate sheet_room 0 }
    ensures sheet_room_value { sheet_room ≡ length result }
{
    [0; SHEET_ROOM]
}

// Zeros to read records into.
pub fn record_buffer() -> [u8; RECORD_ROOM]
    ensures value { result ≡ replicate record_room 0 }
    ensures record_room_value { record_room ≡ length result }
{
    [0; RECORD_ROOM]
}
