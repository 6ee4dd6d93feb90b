// Runs `rules` on the vectors of document 02's K1, on random measures beside a second computation, and on arguments as the program `design_rules` takes them.
// It writes the counts, with ok if nothing is wrong.
#![tactic(auto)]

mod draws; // measures at random
mod plain; // the second computation
mod vectors; // the vectors' lines

use draws::draw;
use files::load;
use oracle_text::random::Generator;
use plain::{Figures, Measures, Refusal, plain};
use rules::argument::read_number;
use std::io;
use std::rt::Files;
use vectors::Line;

// What is counted: vectors and arguments that come out right, and random measures by what they come to.
#[derive(Clone, Copy)]
enum Kind {
    Vector,
    Argument,
    Accepted,
    OutOfRange,
    NoCapacity,
}

// How many of each kind came out right, and how many of all are wrong.
#[derive(Drop)]
struct Counts {
    vectors: u64,
    arguments: u64,
    accepted: u64,
    out_of_range: u64,
    no_capacity: u64,
    wrong: u64,
}

// What `rules` answers.
fn answered(m: Measures) -> Result<Figures, u64> {
    let answer = rules::rules(m.p, m.d, m.w, m.s);
    match answer {
        Ok(f) => Ok(Figures {
            o: f.orthogonal,
            o_rest: f.remainder,
            k: f.count,
            k_rest: f.left,
            diagonal: f.diagonal,
        }),
        Err(_) => Err(rules::refusal_of(answer)),
    }
}

// The same with the document's number of a refusal.
fn numbered(second: Result<Figures, Refusal>) -> Result<Figures, u64> {
    match second {
        Ok(figures) => Ok(figures),
        Err(refusal) => Err(refusal.number()),
    }
}

// `rules` and the second computation say what the line says.
fn agrees(text: &[u8]) -> bool {
    let line = Line::read(text);
    let measures = line.measures();
    line.expected().is_some_and(|expected| answered(measures) == expected
        && numbered(plain(measures)) == expected)
}

impl Counts {
    // Counts the kind where it is right, and else that something is wrong.
    fn count(&mut self, right: bool, kind: Kind) {
        let n = match kind {
            _ if !right => &mut self.wrong,
            Kind::Vector => &mut self.vectors,
            Kind::Argument => &mut self.arguments,
            Kind::Accepted => &mut self.accepted,
            Kind::OutOfRange => &mut self.out_of_range,
            Kind::NoCapacity => &mut self.no_capacity,
        };
        *n = n.wrapping_add(1);
    }

    // The vectors of the file, one in each line that ends.
    fn vectors(&mut self, rt: &(impl Files + Eprint)) {
        let mut buffer = [0u8; 4096];
        let text = load(rt, b"rules.txt", &mut buffer);
        for line in text.split_inclusive(|b| *b == b'\n') {
            if line.ends_with(b"\n") {
                self.count(agrees(line), Kind::Vector);
            }
        }
    }

    // The argument is this number, or none.
    fn argument(&mut self, text: &[u8], expected: Option<u64>) {
        self.count(read_number(text) == expected, Kind::Argument);
    }

    fn arguments(&mut self) {
        self.argument(b"800", Some(800));
        self.argument(b"0", Some(0));
        self.argument(b"000075", Some(75));
        self.argument(b"100000", Some(100000));
        self.argument(b"100001", Some(100001));
        self.argument(b"100002", Some(100002));
        self.argument(b"18446744073709551617", Some(10000000000));
        self.argument(b"", None);
        self.argument(b"-5", None);
        self.argument(b"7.5", None);
        self.argument(b"12a", None);
        self.argument(b" 12", None);
        self.argument(b"/", None);
        self.argument(b":", None);
    }

    // Measures on which the two computations have to agree.
    fn random(&mut self, measures: Measures) {
        let second = plain(measures);
        let kind = match second {
            Ok(_) => Kind::Accepted,
            Err(Refusal::OutOfRange) => Kind::OutOfRange,
            Err(Refusal::NoCapacity) => Kind::NoCapacity,
        };
        self.count(answered(measures) == numbered(second), kind);
    }

    fn randoms(&mut self) {
        let mut generator = Generator::new(2463534242);
        for _ in 0..5000 {
            self.random(draw(&mut generator));
        }
    }
}

fn main(rt: HostRuntime) -> io::Result<()> {
    let mut counts = Counts {
        vectors: 0,
        arguments: 0,
        accepted: 0,
        out_of_range: 0,
        no_capacity: 0,
        wrong: 0,
    };
    counts.vectors(&rt);
    counts.arguments();
    counts.randoms();
    print!(rt; "vectors {} arguments {}", counts.vectors, counts.arguments)?;
    print!(rt; " accepted {}", counts.accepted)?;
    print!(rt; " refused 9 {}", counts.out_of_range)?;
    print!(rt; " refused 10 {}", counts.no_capacity)?;
    if counts.wrong == 0 {
        println!(rt; " ok")
    } else {
        println!(rt; " wrong {}", counts.wrong)
    }
}
