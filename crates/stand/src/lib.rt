// A stand of coated cubes, ported from renew's crates/volume (lib.rs and volume.rs).
#![tactic(auto)]

ghost use Rattle.std.specs.Prelude.{◌≡◌, ◌<◌};
ghost use Rattle.stand.specs.Cells.{is_empty, cell_of, moved};
ghost use Rattle.stand.specs.Sides.{side_number, step_at, axes_at, face_at};

use arith::saturate::saturating_add_i32;

pub mod volume;

// What a cell is made of: document 01's finish. 0 is empty.
#[derive(Clone, Copy, PartialEq, Eq)]
pub struct Voxel(pub u16);

impl Voxel {
    // Absence.
    // Kept: a constant for the empty finish, since cells are numbers in the C interface and document 01 makes 0 the empty one.
    pub const EMPTY: Self = Self(0);

    // Rules out "empty" for a finish, and "occupied" for EMPTY.
    pub fn is_empty(self) -> bool
        ensures { result ≡ is_empty self.0 }
    {
        self == Self::EMPTY
    }
}

// A cell's address.
// Kept: three numbers as Extent, Step and Point have, since the C interface tells cells from extents, and a C struct has no type parameter.
#[repr(C)]
#[derive(Clone, Copy, Default)]
pub struct Cell {
    // East.
    pub x: i32,
    // Up.
    pub y: i32,
    // North.
    pub z: i32,
}

impl Cell {
    // Rules out two coordinates swapped, and one dropped.
    pub fn new(x: i32, y: i32, z: i32) -> Self
        ensures { result ≡ cell_of x y z }
    {
        Self { x, y, z }
    }

    // This cell moved by whole steps, saturating at the i32 ends. Rules out wrapping, and a step along one axis alone.
    #[tactic(auto, unfolding(crate::specs::Cells::moved))]
    pub fn offset(self, x: i32, y: i32, z: i32) -> Self
        ensures { result ≡ moved self x y z }
    {
        let a = saturating_add_i32(self.x, x);
        let b = saturating_add_i32(self.y, y);
        let c = saturating_add_i32(self.z, z);
        Self::new(a, b, c)
    }
}

// A side of a cell.
#[derive(Clone, Copy, PartialEq, Eq)]
pub enum Face {
    // Toward +x.
    East,
    // Toward -x.
    West,
    // Toward +y.
    Top,
    // Toward -y.
    Bottom,
    // Toward +z.
    North,
    // Toward -z.
    South,
}

// Whole steps along the three axes.
// Kept: a step has the fields of a cell; one type for both would be no plainer, since it lets a cell stand where a step is meant.
#[derive(Clone, Copy)]
pub struct Step {
    pub x: i32,
    pub y: i32,
    pub z: i32,
}

// The axes of a side, 0 for x to 2 for z: its normal, and the first and second axis of its plane.
// Kept: axes as numbers, since they are places in the eight numbers of a panel.
#[derive(Clone, Copy)]
pub struct Axes {
    pub normal: usize,
    pub first: usize,
    pub second: usize,
}

// The sides by number.
// Kept: a rule of the project asks for sides, steps and axes as tables of six, by side number.
const SIDES: [Face; 6] = [
    Face::East,
    Face::West,
    Face::Top,
    Face::Bottom,
    Face::North,
    Face::South,
];

// The step to the next cell, by side number.
const STEPS: [Step; 6] = [
    Step { x: 1, y: 0, z: 0 },
    Step { x: -1, y: 0, z: 0 },
    Step { x: 0, y: 1, z: 0 },
    Step { x: 0, y: -1, z: 0 },
    Step { x: 0, y: 0, z: 1 },
    Step { x: 0, y: 0, z: -1 },
];

// The axes, by side number.
const AXES: [Axes; 6] = [
    Axes {
        normal: 0,
        first: 1,
        second: 2,
    },
    Axes {
        normal: 0,
        first: 1,
        second: 2,
    },
    Axes {
        normal: 1,
        first: 0,
        second: 2,
    },
    Axes {
        normal: 1,
        first: 0,
        second: 2,
    },
    Axes {
        normal: 2,
        first: 0,
        second: 1,
    },
    Axes {
        normal: 2,
        first: 0,
        second: 1,
    },
];

impl Face {
    // The side of a number; none past 5. Rules out another order of the sides, and a side for 6.
    // Kept: the port's own name and an Option; the only thing wrong with a number is that it is past 5.
    pub fn at(side: usize) -> Option<Self>
        ensures { result ≡ face_at side }
    {
        SIDES.get(side).copied()
    }

    // The number of a side, 0 to 5. Rules out numbers from 1, and another order.
    pub fn number(self) -> usize
        ensures { (result ≡ side_number self) × (result < 6) }
    {
        self as usize
    }

    // The step from a cell to the next one on this side. Rules out the opposite step, and one along another axis.
    // Kept: this and `axes` are one index each, into tables of two types that a rule of the project asks for; a generic one would be the index alone.
    pub fn step(self) -> Step
        ensures { result ≡ step_at (side_number self) }
    {
        STEPS[self.number()]
    }

    // Rules out the plane's axes in descending order, and the normal among them.
    pub fn axes(self) -> Axes
        ensures { result ≡ axes_at (side_number self) }
    {
        AXES[self.number()]
    }
}
