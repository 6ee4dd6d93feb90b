// A job: rows, columns, O, D, E, and a cell for each pin of the greatest array, the pin at row r, column c at 40 r + c. The cell has the pin's mark and what the
// tile has whose north-western corner the pin is. A side lies between two pins, and its count stands at the western or northern one of them.
ghost use Rattle.std.specs.Prelude.{IfSome, IsTrue, ◌<◌};

#[derive(Clone, Copy, PartialEq, Eq, Debug)]
pub enum Mark {
    Idle,
    Chosen,
    Missing,
}

impl Mark {
    // The mark with this number, if there is one.
    pub fn from_code(code: usize) -> Option<Mark> {
        match code {
            0 => Some(Mark::Idle),
            1 => Some(Mark::Chosen),
            2 => Some(Mark::Missing),
            _ => None,
        }
    }
}

// A side of a tile, in the order in which texts and records have them.
#[derive(Clone, Copy, PartialEq, Eq, PartialOrd, Ord, Debug)]
pub enum Side {
    North,
    East,
    South,
    West,
}

impl Side {
    pub const ALL: [Side; 4] = [Side::North, Side::East, Side::South, Side::West];

    pub fn letter(self) -> u8 {
        match self {
            Side::North => b'n',
            Side::East => b'e',
            Side::South => b's',
            Side::West => b'w',
        }
    }

    // The side with this letter, if there is one.
    pub fn from_letter(letter: u8) -> Option<Side> {
        match letter {
            b'n' => Some(Side::North),
            b'e' => Some(Side::East),
            b's' => Some(Side::South),
            b'w' => Some(Side::West),
            _ => None,
        }
    }

    // The side with this number in the order, if there is one.
    pub fn from_code(code: usize) -> Option<Side> {
        match code {
            0 => Some(Side::North),
            1 => Some(Side::East),
            2 => Some(Side::South),
            3 => Some(Side::West),
            _ => None,
        }
    }
}

// The mark of a pin, the wires laid between it and the next pins to the east and to the south, and of its tile whether it is closed and the D of its own, 0 for none.
#[derive(Clone, Copy, PartialEq, Eq, Debug)]
pub struct Cell {
    pub mark: Mark,
    pub eastward: u8,
    pub southward: u8,
    pub closed: bool,
    pub own: u8,
}

impl Cell {
    // An idle pin, nothing laid, and an open tile with the D of the job.
    pub const BLANK: Cell = Cell {
        mark: Mark::Idle,
        eastward: 0,
        southward: 0,
        closed: false,
        own: 0,
    };
}

// The five numbers of a job.
#[derive(Clone, Copy)]
pub struct Array {
    pub rows: usize,
    pub columns: usize,
    pub side: usize,
    pub diagonal: usize,
    pub extra: usize,
}

#[derive(Clone, Copy, PartialEq, Eq)]
pub struct Job {
    rows: u8,
    columns: u8,
    side: u8,
    diagonal: u8,
    extra: u8,
    cells: [Cell; 1600],
}

// The number as a byte, 0 where it is none.
fn narrow(n: usize) -> u8 {
    if n < 256 { n as u8 } else { 0 }
}

fn wide(x: u8) -> usize
    ensures { result < 256 }
{
    x as usize
}

impl Job {
    // A job of zeros, to be filled.
    pub const BLANK: Job = Job {
        rows: 0,
        columns: 0,
        side: 0,
        diagonal: 0,
        extra: 0,
        cells: [Cell::BLANK; 1600],
    };

    // The job with these five numbers, every pin idle, every tile open and nothing laid.
    pub fn new(array: Array) -> Job {
        let mut job = Job::BLANK;
        job.rows = narrow(array.rows);
        job.columns = narrow(array.columns);
        job.side = narrow(array.side);
        job.diagonal = narrow(array.diagonal);
        job.extra = narrow(array.extra);
        job
    }

    pub fn rows(&self) -> usize
        ensures { result < 256 }
    {
        wide(self.rows)
    }

    pub fn columns(&self) -> usize
        ensures { result < 256 }
    {
        wide(self.columns)
    }

    // O.
    pub fn side(&self) -> usize
        ensures { result < 256 }
    {
        wide(self.side)
    }

    // The D of the job.
    pub fn diagonal(&self) -> usize
        ensures { result < 256 }
    {
        wide(self.diagonal)
    }

    // E.
    pub fn extra(&self) -> usize
        ensures { result < 256 }
    {
        wide(self.extra)
    }

    pub fn set_diagonal(&mut self, diagonal: usize) {
        self.diagonal = narrow(diagonal);
    }

    pub fn set_extra(&mut self, extra: usize) {
        self.extra = narrow(extra);
    }

    // The cell `p`, 40 r + c.
    pub fn cell(&self, p: usize) -> Cell {
        if p < 1600 { self.cells[p] } else { Cell::BLANK }
    }

    // The mark of the pin `p`.
    pub fn mark(&self, p: usize) -> Mark {
        self.cell(p).mark
    }

    pub fn set_mark(&mut self, p: usize, mark: Mark) {
        if p < 1600 {
            self.cells[p].mark = mark;
        }
    }

    // The tile `p` is closed.
    pub fn is_closed(&self, p: usize) -> bool {
        self.cell(p).closed
    }

    pub fn set_closed(&mut self, p: usize, closed: bool) {
        if p < 1600 {
            self.cells[p].closed = closed;
        }
    }

    // The D that the tile `p` has of its own.
    pub fn own(&self, p: usize) -> Option<usize>
        ensures { IfSome result (λ v. v < 256) }
    {
        match self.cell(p).own {
            0 => None,
            own => Some(wide(own)),
        }
    }

    pub fn set_own(&mut self, p: usize, own: Option<usize>) {
        if p < 1600 {
            self.cells[p].own = narrow(own.unwrap_or(0));
        }
    }

    // The D of the tile `p`: its own, or else that of the job.
    pub fn figure(&self, p: usize) -> usize
        ensures { result < 256 }
    {
        let own = self.cell(p).own;
        if own == 0 { self.diagonal() } else { wide(own) }
    }

    // A tile may have the D of its own: from O to twice O, and not that of the job.
    pub fn may_own(&self, own: usize) -> bool {
        let side = self.side();
        own >= side && own <= 2 * side && own != self.diagonal()
    }

    // The pin at row r, column c is one of the array.
    pub fn is_pin(&self, r: usize, c: usize) -> bool {
        r < self.rows() && c < self.columns()
    }

    // The pin stands in the first or last row or column.
    pub fn is_rim(&self, r: usize, c: usize) -> bool {
        if r >= 40 || c >= 40 || !self.is_pin(r, c) {
            return false;
        }
        r == 0 || c == 0 || r + 1 == self.rows() || c + 1 == self.columns()
    }

    // The tile at row r, column c is one of the array.
    pub fn is_tile(&self, r: usize, c: usize) -> bool
        ensures { IsTrue result → (r < 39) × (c < 39) }
    {
        r < 39 && c < 39 && r + 1 < self.rows() && c + 1 < self.columns()
    }

    // The tile is one of the array and not closed.
    pub fn is_open(&self, r: usize, c: usize) -> bool {
        self.is_tile(r, c) && !self.is_closed(40 * r + c)
    }

    // The wires already laid on a side of the tile.
    pub fn laid(&self, r: usize, c: usize, side: Side) -> usize
        ensures { result < 256 }
    {
        if r >= 39 || c >= 39 {
            return 0;
        }
        let p = 40 * r + c;
        wide(match side {
            Side::North => self.cell(p).eastward,
            Side::East => self.cell(p + 1).southward,
            Side::South => self.cell(p + 40).eastward,
            Side::West => self.cell(p).southward,
        })
    }

    // How many wires a side of the tile takes.
    pub fn room(&self, r: usize, c: usize, side: Side) -> usize
        ensures { result < 256 }
    {
        self.side().saturating_sub(self.laid(r, c, side))
    }

    pub fn set_laid(&mut self, r: usize, c: usize, side: Side, n: usize) {
        if r < 39 && c < 39 {
            let p = 40 * r + c;
            let count = narrow(n);
            match side {
                Side::North => self.cells[p].eastward = count,
                Side::East => self.cells[p + 1].southward = count,
                Side::South => self.cells[p + 40].eastward = count,
                Side::West => self.cells[p].southward = count,
            }
        }
    }

    // How many pins have the mark.
    pub fn count_marked(&self, mark: Mark) -> usize
        ensures { result < 1601 }
    {
        self.cells.iter().filter(|cell| cell.mark == mark).count()
    }
}
