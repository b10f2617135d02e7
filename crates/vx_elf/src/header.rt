ghost use Rattle.std.specs.Prelude.{◌≡◌, ◌+◌, ◌*◌, ◌<◌, ◌≤◌, length};
ghost use Rattle.vx_elf.specs.Layout.{number_at, file_type, machine, entry_point, table_place, file_flags, header_size, header_count, header_from};

use byteorder::{ByteOrder, LittleEndian};

/// The fields of a program header that are read (ELF-64 Object File Format 1.5, Program header).
#[derive(Clone, Copy, Debug)]
pub struct ProgramHeader {
    /// `p_type`.
    pub kind: u32,
    /// `p_flags`.
    pub flags: u32,
    /// `p_offset`: where its bytes begin in the file.
    pub offset: u64,
    /// `p_vaddr`.
    pub address: u64,
    /// `p_filesz`: how many bytes the file holds.
    pub file_size: u64,
    /// `p_memsz`: how many bytes of memory it takes.
    pub memory_size: u64,
}

/// The 16-bit number at a place.
fn u16_at(bytes: &[u8], place: usize) -> u16
    requires { place + 2 ≤ length bytes.now }
    ensures { result ≡ number_at bytes.now place 2 }
{
    LittleEndian::read_u16(&bytes[place..])
}

/// The 32-bit number at a place.
fn u32_at(bytes: &[u8], place: usize) -> u32
    requires { place + 4 ≤ length bytes.now }
    ensures { result ≡ number_at bytes.now place 4 }
{
    LittleEndian::read_u32(&bytes[place..])
}

/// The 64-bit number at a place.
fn u64_at(bytes: &[u8], place: usize) -> u64
    requires { place + 8 ≤ length bytes.now }
    ensures { result ≡ number_at bytes.now place 8 }
{
    LittleEndian::read_u64(&bytes[place..])
}

/// `e_type`.
pub fn file_type(bytes: &[u8]) -> u16
    requires { 64 ≤ length bytes.now }
    ensures { result ≡ file_type bytes.now }
{
    u16_at(bytes, 16)
}

/// `e_machine`.
pub fn machine(bytes: &[u8]) -> u16
    requires { 64 ≤ length bytes.now }
    ensures { result ≡ machine bytes.now }
{
    u16_at(bytes, 18)
}

/// `e_entry`.
pub fn entry_point(bytes: &[u8]) -> u64
    requires { 64 ≤ length bytes.now }
    ensures { result ≡ entry_point bytes.now }
{
    u64_at(bytes, 24)
}

/// `e_phoff`.
pub fn table_place(bytes: &[u8]) -> u64
    requires { 64 ≤ length bytes.now }
    ensures { result ≡ table_place bytes.now }
{
    u64_at(bytes, 32)
}

/// `e_flags`.
pub fn file_flags(bytes: &[u8]) -> u32
    requires { 64 ≤ length bytes.now }
    ensures { result ≡ file_flags bytes.now }
{
    u32_at(bytes, 48)
}

/// `e_phentsize`.
pub fn header_size(bytes: &[u8]) -> u16
    requires { 64 ≤ length bytes.now }
    ensures { result ≡ header_size bytes.now }
{
    u16_at(bytes, 54)
}

/// `e_phnum`.
pub fn header_count(bytes: &[u8]) -> u16
    requires { 64 ≤ length bytes.now }
    ensures { result ≡ header_count bytes.now }
{
    u16_at(bytes, 56)
}

/// The program header at a place.
#[tactic(auto, unfolding(crate::specs::Layout::header_from))]
pub fn header_from(bytes: &[u8], place: usize) -> ProgramHeader
    requires { place + 56 ≤ length bytes.now }
    ensures { result ≡ header_from bytes.now place }
{
    ProgramHeader {
        kind: u32_at(bytes, place),
        flags: u32_at(bytes, place + 4),
        offset: u64_at(bytes, place + 8),
        address: u64_at(bytes, place + 16),
        file_size: u64_at(bytes, place + 32),
        memory_size: u64_at(bytes, place + 40),
    }
}
