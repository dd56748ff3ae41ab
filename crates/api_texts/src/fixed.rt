//! The fault lines that don't depend on the input.
ghost use Rattle.std.specs.Prelude.{◌≡◌};
ghost use Rattle.api_texts.specs.FixedLines.{memory_line, read_line, words_line, write_line};

/// The line for words that aren't good.
pub fn words_line() -> &'static [u8]
    ensures { result.now ≡ words_line }
{
    b"apigate: usage: apigate features or frozen or judge or advise or gate or skipped or vet or make, then options\n"
}

/// The line of a fault of reading.
pub fn read_line() -> &'static [u8]
    ensures { result.now ≡ read_line }
{
    b"apigate: read fault\n"
}

/// The line of a fault of writing.
pub fn write_line() -> &'static [u8]
    ensures { result.now ≡ write_line }
{
    b"apigate: write fault\n"
}

/// The line of want of memory.
pub fn memory_line() -> &'static [u8]
    ensures { result.now ≡ memory_line }
{
    b"apigate: out of memory\n"
}
