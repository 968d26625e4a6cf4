// The five lists that a stand is lent.
ghost use Rattle.std.specs.Prelude.{◌≡◌, IfOk};
ghost use Rattle.stand.specs.Answer.{code_of};
ghost use Rattle.stand.specs.Lent.{Kept, storage_in};
ghost use Rattle.stand.specs.Refusal.{first};
ghost use Rattle.stand.specs.Storage.{lengths_of, storage_rules, zeros};

use crate::volume::formed::Formed;
use crate::volume::refusal::Refusal;
use crate::volume::{CHUNK_CELLS, Volume};

// A cell's finish, and of each chunk the hash, the version, a slot of the change log and the last change.
#[derive(Drop)]
pub struct Storage<'a> {
    pub cells: &'a mut [u16],
    pub hashes: &'a mut [u64],
    pub versions: &'a mut [u32],
    pub log: &'a mut [u32],
    pub last: &'a mut [u64],
}

// The header, known to be one that opening gives and that lists of these lengths fit; refuses by 3 and 4. Rules out 4 for a header that 3 refuses, and 0 for a list too long.
// Kept: five lengths, since a caller may have the lists and no struct of them yet.
#[inline]
#[tactic(auto, unfolding(crate::specs::Refusal::first, crate::specs::Storage::storage_fits))]
pub fn storage_code(
    v: Volume,
    cells: usize,
    hashes: usize,
    versions: usize,
    log: usize,
    last: usize,
) -> Result<Formed, Refusal>
    ensures code { code_of result ≡ first (storage_rules v (record { cells = cells; hashes = hashes; versions = versions; log = log; last = last })) }
    ensures same { IfOk result (λ f. f.volume ≡ v) }
{
    let header = v.formed()?;
    let n = header.chunk_total();
    let fits = cells as u64 == n * CHUNK_CELLS
        && hashes as u64 == n
        && versions as u64 == n
        && log as u64 == n
        && last as u64 == n;
    if !fits {
        return Err(Refusal::WrongLength);
    }
    Ok(header)
}

impl<'a> Storage<'a> {
    // The header, known to be one that opening gives and that the lists fit; refuses by 3 and 4. Rules out 4 for a header that 3 refuses, and a list too long.
    #[inline]
    pub fn check(&self, v: Volume) -> Result<Formed, Refusal>
        ensures code { code_of result ≡ first (storage_rules v (lengths_of (storage_in self.now))) }
        ensures same { IfOk result (λ f. f.volume ≡ v) }
    {
        storage_code(
            v,
            self.cells.len(),
            self.hashes.len(),
            self.versions.len(),
            self.log.len(),
            self.last.len(),
        )
    }

    // All lists zeroed.
    #[tactic(auto, unfolding(crate::specs::Storage::zeros))]
    pub(crate) fn clear(&mut self)
        ensures zeroed { storage_in self.new ≡ zeros (lengths_of (storage_in self.old)) }
        ensures kept { Kept self.old self.new }
    {
        self.cells.fill(0);
        self.hashes.fill(0);
        self.versions.fill(0);
        self.log.fill(0);
        self.last.fill(0);
    }
}
