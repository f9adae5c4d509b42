// The head of a net file and its pairs, and the sections that they hand out.
ghost use Rattle.std.specs.Prelude.{◌≡◌, false, ◌+◌, ◌<◌, ◌≤◌, length};
ghost use Rattle.net.specs.Layout.{head_bytes};
ghost use Rattle.net.specs.File.{version_of, offset, extent, stretch};
ghost use Rattle.net.specs.Numbers.{checked};
ghost use Rattle.net.specs.Sections.{index_of};
ghost use Rattle.net.specs.Refusal.{met, or_else, is_version, head_refusal, pairs_refusal, section_of};

use crate::fields::{u16_at, u32_at};
use crate::layout::{
    FIRST_VERSION, HEAD_BYTES, LENGTH_AT, NEWEST_VERSION, PAIR_BYTES, PAIR_COUNT, PAIR_COUNT_AT,
    PAIRS_AT, VERSION_AT,
};
use crate::refusal::Refusal;

// The version of a file that has a head.
pub fn version(file: &[u8]) -> u16
    requires { head_bytes ≤ length file.now }
    ensures { result ≡ version_of file.now }
{
    u16_at(file, VERSION_AT)
}

// Net files have this version.
pub fn is_version(version: u32) -> bool
    ensures { result ≡ is_version version }
{
    version == u32::from(FIRST_VERSION) || version == u32::from(NEWEST_VERSION)
}

// The sections of a file, in its order.
#[derive(Clone, Copy, Debug, PartialEq, Eq)]
pub enum Section {
    Nodes,
    Wires,
    Obstacles,
}

impl Section {
    fn index(self) -> usize
        ensures { result ≡ index_of self }
    {
        match self {
            Section::Nodes => 0,
            Section::Wires => 1,
            Section::Obstacles => 2,
        }
    }
}

// A section of a file: a part of it, or an empty part after 2 or 3.
pub fn section_or_empty(file: &[u8], of: Section) -> &[u8]
    ensures { result.now ≡ section_of file.now (index_of of) }
{
    match head_and_pairs_refusal(file) {
        Ok(()) => stretch(file, of),
        Err(_) => &file[0..0],
    }
}

// The part of the file that a section's pair names, once head and pairs are checked.
pub fn stretch(file: &[u8], of: Section) -> &[u8]
    requires { met (or_else (head_refusal file.now) (pairs_refusal file.now)) ≡ false }
    ensures { result.now ≡ stretch file.now (index_of of) }
{
    let start = offset(file, of);
    let end = end_of(file, of);
    &file[start..end]
}

// Head of file, then pairs: 2, 3.
pub fn head_and_pairs_refusal(file: &[u8]) -> Result<(), Refusal>
    ensures { checked result ≡ or_else (head_refusal file.now) (pairs_refusal file.now) }
{
    head_refusal(file)?;
    pairs_refusal(file)
}

// Head of file: 2.
fn head_refusal(file: &[u8]) -> Result<(), Refusal>
    ensures { checked result ≡ head_refusal file.now }
{
    if file.len() < HEAD_BYTES
        || !is_version(u32::from(version(file)))
        || u16_at(file, PAIR_COUNT_AT) != PAIR_COUNT
    {
        return Err(Refusal::Head);
    }
    Ok(())
}

// The offset of a section's pair. `as`, here and in `extent`: std has no From of u32 to usize.
// `version` is public and asks for a head of any bytes; a struct for files with one would take that clause from four private functions here, and be longer than the clauses.
// It and `extent` stay two: each is one number read, and one function of a place would leave both names as calls of it.
fn offset(file: &[u8], of: Section) -> usize
    requires { head_bytes ≤ length file.now }
    ensures { (result ≡ offset file.now (index_of of)) × (result < 4294967296) }
{
    let k = of.index();
    u32_at(file, PAIRS_AT + PAIR_BYTES * k) as usize
}

// The length of a section's pair.
fn extent(file: &[u8], of: Section) -> usize
    requires { head_bytes ≤ length file.now }
    ensures { (result ≡ extent file.now (index_of of)) × (result < 4294967296) }
{
    let k = of.index();
    u32_at(file, PAIRS_AT + LENGTH_AT + PAIR_BYTES * k) as usize
}

// Where a section ends. The sum of two numbers of 32 bits has 64: it does not wrap.
fn end_of(file: &[u8], of: Section) -> usize
    requires { head_bytes ≤ length file.now }
    ensures { result ≡ offset file.now (index_of of) + extent file.now (index_of of) }
{
    offset(file, of) + extent(file, of)
}

// Pairs: 3.
fn pairs_refusal(file: &[u8]) -> Result<(), Refusal>
    requires { head_bytes ≤ length file.now }
    ensures { checked result ≡ pairs_refusal file.now }
{
    if offset(file, Section::Nodes) != HEAD_BYTES
        || offset(file, Section::Wires) != end_of(file, Section::Nodes)
        || offset(file, Section::Obstacles) != end_of(file, Section::Wires)
        || file.len() != end_of(file, Section::Obstacles)
    {
        return Err(Refusal::Pairs);
    }
    Ok(())
}
