// What a program is given, read into one lent room: the name, which is its first argument, and its files, each behind the one before.
ghost use Rattle.std.specs.Prelude.{◌≡◌, ◌+◌, ◌≤◌, length, take};
ghost use Rattle.bases.specs.Put.{put};
ghost use Rattle.files.specs.File.{chrom_name};
ghost use Rattle.files.specs.Given.{name_room, file_room, list_room, lists_room, name_in, file_in, first_in, second_in, Laid};

use crate::file::{FILE_ROOM, read_file};
use bases::put::Writer;
use records::record::LONGEST_LINE;
use std::env::FillError;
use std::rt::{Env, Files};

// Where each part ends in the room. The name begins where the room does, each other part where the one before it ends.
#[derive(Clone, Copy)]
pub struct Given {
    pub name: usize,
    pub reference: usize,
    pub first: usize,
    pub second: usize,
}

// The parts of the room in which the program's name and files were laid.
impl Given {
    pub fn name(self, room: &[u8]) -> &[u8]
        requires { Laid self (length room.now) }
        ensures { result.now ≡ name_in room.now self }
    {
        &room[..self.name]
    }

    // The reference file.
    pub fn reference(self, room: &[u8]) -> &[u8]
        requires { Laid self (length room.now) }
        ensures { result.now ≡ file_in room.now self }
    {
        &room[self.name..self.reference]
    }

    // List 1.
    pub fn first(self, room: &[u8]) -> &[u8]
        requires { Laid self (length room.now) }
        ensures { result.now ≡ first_in room.now self }
    {
        &room[self.reference..self.first]
    }

    // List 2.
    pub fn second(self, room: &[u8]) -> &[u8]
        requires { Laid self (length room.now) }
        ensures { result.now ≡ second_in room.now self }
    {
        &room[self.first..self.second]
    }
}

// As long as the longest line: no CHROM is longer.
pub const NAME_ROOM: usize = LONGEST_LINE;

// The room for the name, a reference file and one list; for two lists.
pub const LIST_ROOM: usize = NAME_ROOM + 2 * FILE_ROOM;

pub const LISTS_ROOM: usize = LIST_ROOM + FILE_ROOM;

// Writes the name that a program has where it is given none.
fn put_chrom(room: &mut [u8]) -> usize
    requires { name_room ≤ length room.old }
    ensures { (result ≡ length chrom_name)
        × (room.new ≡ put room.old 0 chrom_name) }
{
    let mut out = Writer { room, at: 0 };
    out.bytes(b"chr1");
    out.at
}

// Reads the name into the room, from its start on, and says where it ends. It is the first argument, whose bytes need not be UTF-8. One
// that does not fit its room counts as empty: neither is the CHROM of a record.
fn read_name(rt: &impl Env, room: &mut [u8]) -> usize
    requires { name_room ≤ length room.old }
    ensures { result ≤ name_room }
{
    match rt.arg(1, &mut room[0..NAME_ROOM]) {
        Ok(n) => n,
        Err(FillError::TooLong) => 0,
        Err(FillError::NotPresent) => put_chrom(room),
    }
}

// Reads a file into the room from `at` on, and says where what was read ends. What stands before it stays.
fn read_behind(rt: &impl Files, path: &[u8], room: &mut [u8], at: usize) -> usize
    requires { at + file_room ≤ length room.old }
    ensures { (at ≤ result)
        × (result ≤ at + file_room)
        × (take at room.new ≡ take at room.old) }
{
    at + read_file(rt, path, &mut room[at..at + FILE_ROOM])
}

// Reads the name, reference.txt and first.vcf. List 2 is empty.
pub fn read_list(rt: &(impl Env + Files), room: &mut [u8]) -> Given
    requires { list_room ≤ length room.old }
    ensures { Laid result (length room.new) }
{
    let name = read_name(rt, room);
    let reference = read_behind(rt, b"reference.txt", room, name);
    let first = read_behind(rt, b"first.vcf", room, reference);
    Given {
        name,
        reference,
        first,
        second: first,
    }
}

// Reads the name, reference.txt, first.vcf and second.vcf.
pub fn read_lists(rt: &(impl Env + Files), room: &mut [u8]) -> Given
    requires { lists_room ≤ length room.old }
    ensures { Laid result (length room.new) }
{
    let given = read_list(rt, room);
    let second = read_behind(rt, b"second.vcf", room, given.first);
    Given { second, ..given }
}
