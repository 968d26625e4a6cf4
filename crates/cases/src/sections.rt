// Calls that read the header, or the lists that have an entry for each section.
use crate::answer::{Answer, Entry};
use crate::args::{Args, bare, one};
use crate::fault::Fault;
use crate::list::some;
use crate::replies::said;
use crate::stage::Stage;
use crate::words::Words;
use exports::panels::stand_chunk_slots;
use exports::read::{
    stand_chunk_count, stand_chunk_hash, stand_chunk_origin, stand_chunk_version, stand_chunks,
    stand_digest, stand_generation, stand_max, stand_merged, stand_origin, stand_size,
    stand_solid_count,
};
use exports::walk::{stand_changed_since, stand_changed_step};
use stand::volume::feed::Changes;
use stand::volume::hash::splitmix64;
use stand::volume::{Extent, Volume};

#[derive(Clone, Copy)]
pub(crate) enum HeaderRead {
    Origin,
    Max,
    Size,
    Sections,
    Count,
    Solid,
    Generation,
    Corner(usize),
    Wants(usize),
    Merged(Extent),
    Splitmix(u64),
}

#[derive(Clone, Copy)]
pub(crate) enum SectionRead {
    Digest,
    Stand,
    Hash(usize),
    Version(usize),
    Changed(u64),
    Walk(u64),
    Lists,
}

impl HeaderRead {
    pub(crate) fn read(name: &[u8], words: Words) -> Result<Option<HeaderRead>, Fault> {
        Ok(Some(match name {
            b"origin" => bare(words, HeaderRead::Origin)?,
            b"max" => bare(words, HeaderRead::Max)?,
            b"size" => bare(words, HeaderRead::Size)?,
            b"sections" => bare(words, HeaderRead::Sections)?,
            b"count" => bare(words, HeaderRead::Count)?,
            b"solid" => bare(words, HeaderRead::Solid)?,
            b"generation" => bare(words, HeaderRead::Generation)?,
            b"corner" => HeaderRead::Corner(one(words)?),
            b"wants" => HeaderRead::Wants(one(words)?),
            b"merged" => HeaderRead::Merged(Args::read(words, 3)?.extent(0)?),
            b"splitmix" => HeaderRead::Splitmix(one(words)?),
            _ => return Ok(None),
        }))
    }

    pub(crate) fn make(self, stage: &Stage) -> Answer {
        let v = stage.volume;
        match self {
            HeaderRead::Origin => stand_origin(v).into(),
            HeaderRead::Max => stand_max(v).into(),
            HeaderRead::Size => stand_size(v).into(),
            HeaderRead::Sections => stand_chunks(v).into(),
            HeaderRead::Count => stand_chunk_count(v).into(),
            HeaderRead::Solid => stand_solid_count(v).into(),
            HeaderRead::Generation => stand_generation(v).into(),
            HeaderRead::Corner(section) => stand_chunk_origin(v, section).into(),
            HeaderRead::Wants(section) => stand_chunk_slots(v, section).into(),
            HeaderRead::Merged(extent) => stand_merged(extent).into(),
            HeaderRead::Splitmix(state) => Answer::of(splitmix64(state)),
        }
    }
}

// Generation, solid and digest.
fn summary(v: Volume, hashes: &[u64]) -> Answer {
    let digest = stand_digest(v, hashes);
    said(
        digest.code,
        Answer::of(v.generation).and(v.solid).and(digest.value),
    )
}

// The sections changed since a mark: at most as many as there are log slots, and then the end.
// Kept: two walks by steps, here and over the cells, since the C interface has a step for each, whose reply is a code, `given` and a value, and takes log and last one by one.
fn changed(v: Volume, log: &[u32], last: &[u64], mark: u64) -> Answer {
    let since = stand_changed_since(v, log, last, mark);
    if since.code != 0 {
        return Answer::refused(since.code);
    }
    let mut given = Answer::none();
    let mut next = since.value;
    for _ in 0..=log.len() {
        let g = stand_changed_step(v, log, last, next);
        if g.given == 0 {
            return said(g.code, given);
        }
        g.chunk.put(&mut given);
        next = g.next;
    }
    given
}

// The same by the reader: made at the mark, then step after step.
// Kept: a list with a count beside it, which is what the reader fills and answers; there is no heap. Log and last come as to the walk above; joined by the caller they would be no plainer.
fn walk(v: Volume, log: &[u32], last: &[u64], mark: u64) -> Answer {
    let mut list = [0u64; 12];
    match v.walk_changed(Changes { log, last }, mark, &mut list) {
        Ok(n) => Answer::of(some(&list, n as usize)),
        Err(refusal) => Answer::refused(refusal.number()),
    }
}

impl SectionRead {
    pub(crate) fn read(name: &[u8], words: Words) -> Result<Option<SectionRead>, Fault> {
        Ok(Some(match name {
            b"digest" => bare(words, SectionRead::Digest)?,
            b"stand" => bare(words, SectionRead::Stand)?,
            b"hash" => SectionRead::Hash(one(words)?),
            b"version" => SectionRead::Version(one(words)?),
            b"changed" => SectionRead::Changed(one(words)?),
            b"walk" => SectionRead::Walk(one(words)?),
            b"lists" => bare(words, SectionRead::Lists)?,
            _ => return Ok(None),
        }))
    }

    pub(crate) fn make(self, stage: &Stage) -> Answer {
        let v = stage.volume;
        let hashes = stage.storage.hashes.entries();
        let versions = stage.storage.versions.entries();
        let log = stage.storage.log.entries();
        let last = stage.storage.last.entries();
        match self {
            SectionRead::Digest => stand_digest(v, hashes).into(),
            SectionRead::Stand => summary(v, hashes),
            SectionRead::Hash(section) => stand_chunk_hash(v, hashes, section).into(),
            SectionRead::Version(section) => stand_chunk_version(v, versions, section).into(),
            SectionRead::Changed(mark) => changed(v, log, last, mark),
            SectionRead::Walk(mark) => walk(v, log, last, mark),
            SectionRead::Lists => Answer::of(versions).and(log).and(last),
        }
    }
}
