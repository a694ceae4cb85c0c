// A page that the walk goes over. In a file of its own: a struct with ghost fields imports all that the `ghost use` items of its file name, and specs/Code.antt names this one.
ghost use Rattle.std.specs.Prelude.{◌≤◌, ◌<◌};

use layout::Shape;

// A page that has a frame: its table, its number there, what its handles' objects are below, its high mark, its frame, and the shape of the state. Its methods are in lib.rt.
#[derive(Clone, Copy)]
pub struct Page {
    pub table: u64,
    pub number: u32,
    pub bound: u64,
    pub high: u64,
    pub frame: u64,
    pub sh: Shape,
    ghost few: { bound ≤ sh.objects },
    ghost there: { frame < sh.frames },
}
