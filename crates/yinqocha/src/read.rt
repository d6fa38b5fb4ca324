// Reading a sheet, for C.
ghost use Rattle.std.specs.Prelude.{◌≡◌, length};
ghost use Rattle.frame.specs.Reading.{read_sheet};
ghost use Rattle.read_door.specs.ReadDoor.{read_word, contents_table};

// Reads a sheet: how many jobs it has, and to the front of `contents` what it holds.
#[unsafe(no_mangle)]
pub extern "C" fn yinqocha_read(sheet: &[u8], contents: &mut [u8]) -> u64
    ensures word { result ≡ read_word (read_sheet sheet.now) (length contents.old) }
    ensures table { contents.new ≡ contents_table (read_sheet sheet.now)
        contents.old }
{
    read_door::read(sheet, contents)
}
