// The calls that only read.
#![tactic(auto, unfolding(crate::specs::Read::of_header, crate::specs::Refusal::first, crate::specs::Refusal::answer))]

ghost use Rattle.std.specs.Prelude.{◌≡◌};
ghost use Rattle.stand.specs.Answer.{answer_of};
ghost use Rattle.stand.specs.Lent.{versions_answer, voxel_answer};
ghost use Rattle.stand.specs.Read.{chunk_of_call, chunk_origin_call, entry_call, get_call, is_solid_call, of_header, versions_call};
ghost use Rattle.stand.specs.Shape.{clamp_cell, inside, last_cell, sections, shape_of};

use crate::volume::refusal::Refusal;
use crate::volume::shape::{Point, levels};
use crate::volume::{CHUNK_CELLS, Extent, Volume};
use crate::{Cell, Voxel};

// Kept: the calls that answer one field of the header are a line each, with a field and a type of their own.
impl Volume {
    // The lowest cell; refuses by 3. Rules out the last cell, and an answer for a header that opening never gives.
    pub fn origin(self) -> Result<Cell, Refusal>
        ensures { answer_of result ≡ of_header self self.origin }
    {
        self.formed()?;
        Ok(self.origin)
    }

    // Extent in chunks; refuses by 3. Rules out the extent in cells, and an answer for a header that opening never gives.
    pub fn chunks(self) -> Result<Extent, Refusal>
        ensures { answer_of result ≡ of_header self self.chunks }
    {
        self.formed()?;
        Ok(self.chunks)
    }

    // Extent in cells; refuses by 3. Rules out the extent in chunks, and one rounded up to whole chunks.
    pub fn size(self) -> Result<Extent, Refusal>
        ensures { answer_of result ≡ of_header self self.size }
    {
        self.formed()?;
        Ok(self.size)
    }

    // The highest cell; refuses by 3. Rules out origin plus size, and a sum that wraps.
    #[tactic(auto, unfolding(crate::specs::Read::of_header, crate::specs::Refusal::first, crate::specs::Refusal::answer, crate::specs::Shape::last_cell))]
    pub fn max(self) -> Result<Cell, Refusal>
        ensures { answer_of result ≡ of_header self (last_cell (shape_of self)) }
    {
        let header = self.formed()?;
        let s = header.reach();
        Ok(header.cell_from(Point {
            x: s.x.count - 1,
            y: s.y.count - 1,
            z: s.z.count - 1,
        }))
    }

    // A cell clamped to the stand; refuses by 3. Rules out the cell itself, and one clamped along one axis alone.
    #[tactic(auto, unfolding(crate::specs::Read::of_header, crate::specs::Refusal::first, crate::specs::Refusal::answer, crate::specs::Shape::clamp_cell), using(crate::proofs::Read::clamp_made))]
    pub fn clamp(self, cell: Cell) -> Result<Cell, Refusal>
        ensures { answer_of result ≡ of_header self (clamp_cell (shape_of self) cell) }
    {
        let header = self.formed()?;
        let s = header.reach();
        let p = levels(cell);
        Ok(header.cell_from(Point {
            x: s.x.clamp(p.x),
            y: s.y.clamp(p.y),
            z: s.z.clamp(p.z),
        }))
    }

    // How many chunks there are; refuses by 3. Rules out a count of cells, and one that wraps.
    pub fn chunk_count(self) -> Result<u64, Refusal>
        ensures { answer_of result ≡ of_header self (sections (shape_of self)) }
    {
        Ok(self.formed()?.chunk_total())
    }

    // How many cells are occupied, modulo 2^64; refuses by 3. Rules out the generation, and an answer for a header that opening never gives.
    pub fn solid_count(self) -> Result<u64, Refusal>
        ensures { answer_of result ≡ of_header self self.solid }
    {
        self.formed()?;
        Ok(self.solid)
    }

    // How many changes there were; refuses by 3. Rules out the occupied cells, and a mark other than the present.
    pub fn generation(self) -> Result<u64, Refusal>
        ensures { answer_of result ≡ of_header self self.generation }
    {
        self.formed()?;
        Ok(self.generation)
    }

    // Whether a cell is inside; refuses by 3. Rules out yes for a slot beyond the size, and a refusal for a cell outside.
    #[tactic(auto, unfolding(crate::specs::Read::of_header, crate::specs::Refusal::first, crate::specs::Refusal::answer, crate::specs::Shape::spot_of))]
    pub fn contains(self, cell: Cell) -> Result<bool, Refusal>
        ensures { answer_of result ≡ of_header self (inside (shape_of self) cell) }
    {
        Ok(self.formed()?.spot_of(cell).is_some())
    }

    // Whether a cell is occupied, no for a cell outside; refuses by 3 and 4. Rules out yes for an empty cell, and a refusal for a cell outside.
    // Kept: `get` refuses a cell outside, where this says no; over `get` it would take that refusal apart.
    #[tactic(auto, unfolding(crate::specs::Read::is_solid_call, crate::specs::Refusal::first, crate::specs::Refusal::answer, crate::specs::Shape::place_of, crate::specs::Edit::look), using(crate::proofs::Formed::places))]
    pub fn is_solid(self, cells: &[u16], cell: Cell) -> Result<bool, Refusal>
        ensures { answer_of result ≡ is_solid_call self cells.now cell }
    {
        let stand = self.view(cells)?;
        let Some(i) = stand.header.place_of(cell) else {
            return Ok(false);
        };
        Ok(!Voxel(cells[i]).is_empty())
    }

    // What is in a cell; refuses by 3, 4 and 5. Rules out "empty" for a cell outside, and the finish of another cell.
    #[tactic(auto, unfolding(crate::specs::Read::get_call, crate::specs::Refusal::first, crate::specs::Refusal::answer, crate::specs::Shape::place_of, crate::specs::Edit::look), using(crate::proofs::Formed::places))]
    pub fn get(self, cells: &[u16], cell: Cell) -> Result<Voxel, Refusal>
        ensures { voxel_answer result ≡ get_call self cells.now cell }
    {
        let stand = self.view(cells)?;
        let i = stand.header.place_of(cell).ok_or(Refusal::CellOutside)?;
        Ok(Voxel(cells[i]))
    }

    // The chunk of a cell; refuses by 3 and 5. Rules out another order of the axes, and chunk 0 for a cell outside.
    #[tactic(auto, unfolding(crate::specs::Read::chunk_of_call, crate::specs::Refusal::first, crate::specs::Refusal::answer, crate::specs::Shape::place_of), using(crate::proofs::Formed::places))]
    pub fn chunk_of(self, cell: Cell) -> Result<u64, Refusal>
        ensures { answer_of result ≡ chunk_of_call self cell }
    {
        let i = self.formed()?.place_of(cell).ok_or(Refusal::CellOutside)?;
        Ok(i as u64 / CHUNK_CELLS)
    }

    // The lowest cell of a chunk; refuses by 3 and 7. Rules out its place unscaled, and an answer past the last chunk.
    #[tactic(auto, unfolding(crate::specs::Read::chunk_origin_call, crate::specs::Refusal::first, crate::specs::Refusal::answer))]
    pub fn chunk_origin(self, chunk: usize) -> Result<Cell, Refusal>
        ensures { answer_of result ≡ chunk_origin_call self chunk }
    {
        let header = self.formed()?;
        if header.chunk_total() <= chunk as u64 {
            return Err(Refusal::NoSuchChunk);
        }
        Ok(header.cell_from(header.corner_of(chunk as u32)))
    }

    // The hash of a chunk; refuses by 3, 4 and 7. Rules out another chunk's, and 0 past the last chunk.
    // Kept: two calls, since their lists have two types and the contract speaks of the entries as numbers.
    #[tactic(auto, unfolding(crate::specs::Read::entry_call, crate::specs::Refusal::first, crate::specs::Refusal::answer))]
    pub fn chunk_hash(self, hashes: &[u64], chunk: usize) -> Result<u64, Refusal>
        ensures { answer_of result ≡ entry_call self hashes.now chunk }
    {
        self.with_list(1, hashes.len())?;
        hashes.get(chunk).copied().ok_or(Refusal::NoSuchChunk)
    }

    // The version of a chunk; refuses by 3, 4 and 7. Rules out another chunk's, and 0 past the last chunk.
    #[tactic(auto, unfolding(crate::specs::Read::entry_call, crate::specs::Refusal::first, crate::specs::Refusal::answer))]
    pub fn chunk_version(self, versions: &[u32], chunk: usize) -> Result<u64, Refusal>
        ensures { answer_of result ≡ entry_call self versions.now chunk }
    {
        self.with_list(1, versions.len())?;
        let version = *versions.get(chunk).ok_or(Refusal::NoSuchChunk)?;
        Ok(u64::from(version))
    }

    // The versions of all chunks, the list lent; refuses by 3 and 4. Rules out a part of the list where nothing is refused, and a list for a header that opening never gives.
    #[tactic(auto, unfolding(crate::specs::Read::versions_call, crate::specs::Refusal::first, crate::specs::Refusal::answer))]
    pub fn chunk_versions<'a>(self, versions: &'a [u32]) -> Result<&'a [u32], Refusal>
        ensures { versions_answer result ≡ versions_call self versions.now }
    {
        self.with_list(1, versions.len())?;
        Ok(versions)
    }
}
