//! What the clauses of a program say of its labels, for the order in which they are decided.

use clause_base::{ClauseList, Lit};
use io_base::OutOfMemory;
use std::alloc::Global;

/// The variables of a label's cell: first its rows, then its columns.
pub(crate) const CELL_VARS: u32 = 48;

/// How many of them are rows.
pub(crate) const ROW_VARS: u32 = 32;

/// How much the clauses fix of a label's column.
#[derive(Clone, Copy, PartialEq, Eq, Debug)]
pub(crate) enum Tier {
    /// A clause of one literal fixes it.
    Fixed,
    /// It is tied to the column of an instruction that has this label as a target.
    Tied,
    /// Neither.
    Open,
}

impl Tier {
    // What is known of a label of which a clause fixes this much, and another clause that.
    fn raised(self, other: Tier) -> Tier {
        match self {
            Tier::Fixed => Tier::Fixed,
            Tier::Tied => match other {
                Tier::Fixed => Tier::Fixed,
                _ => Tier::Tied
            },
            Tier::Open => other,
        }
    }

    // How much is fixed, as a number.
    fn rank(self) -> u32 {
        match self {
            Tier::Open => 0,
            Tier::Tied => 1,
            Tier::Fixed => 2
        }
    }
}

/// A label, while the order is made.
#[derive(Clone, Copy)]
struct Label {
    tier: Tier,
    // How many clauses speak of it and of a label that stands in the order.
    kinship: u32,
    is_placed: bool,
}

impl Label {
    // Whether this label comes before another, of a lower number.
    fn comes_before(self, other: Label) -> bool {
        let tier = self.tier.rank();
        let other_tier = other.tier.rank();
        tier > other_tier || (tier == other_tier && self.kinship > other.kinship)
    }
}

/// A label in the order.
#[derive(Clone, Copy)]
pub(crate) struct Ranked {
    pub(crate) label: u32,
    pub(crate) tier: Tier,
}

/// The labels of a program, and for each two of them the number of clauses that speak of both.
#[derive(Drop)]
pub(crate) struct Ties {
    labels: Vec<Label>,
    // By the first label, and then by the second, which is not below it.
    kinships: Vec<u32>,
}

// The label of a variable, where it is of a cell.
fn label_of(lit: Lit, count: u16) -> Option<usize> {
    let label = (lit.var() - 1) / CELL_VARS;
    if label < u32::from(count) {
        Some(label as usize)
    } else {
        None
    }
}

// Whether a variable of a cell is a column.
fn is_column(lit: Lit) -> bool {
    (lit.var() - 1) % CELL_VARS >= ROW_VARS
}

// The least and the greatest label that a clause speaks of.
fn ends_of(clause: &[Lit], count: u16) -> Option<(usize, usize)> {
    let mut ends = None;
    for lit in clause {
        if let Some(label) = label_of(*lit, count) {
            ends = match ends {
                None => Some((label, label)),
                Some((least, greatest)) => Some((label.min(least), label.max(greatest))),
            };
        }
    }
    ends
}

// The literal whose column a clause fixes or ties to another, and how.
fn tied_by(clause: &[Lit]) -> Option<(Lit, Tier)> {
    match clause {
        [lit] if lit.is_positive() && is_column(*lit) => Some((*lit, Tier::Fixed)),
        [from, to] if is_column(*from) && to.is_positive() && is_column(*to) => Some((
            *to,
            Tier::Tied,
        )),
        _ => None,
    }
}

impl Ties {
    /// The ties of the first `count` labels by the clauses after number `from`.
    pub(crate) fn of(
        alloc: Global,
        list: &ClauseList,
        from: u32,
        count: u16,
    ) -> Result<Ties, OutOfMemory> {
        let label = Label {
            tier: Tier::Open,
            kinship: 0,
            is_placed: false,
        };
        let labels = vec![in alloc; label; count as usize]?;
        let pairs = usize::from(count).saturating_mul(usize::from(count));
        let kinships = vec![in alloc; 0; pairs]?;
        let mut ties = Ties { labels, kinships };
        for before in from..list.len() {
            ties.add(list.get(before + 1), count);
        }
        Ok(ties)
    }

    // Counts a clause.
    fn add(&mut self, clause: &[Lit], count: u16) {
        if let Some((least, greatest)) = ends_of(clause, count) {
            self.add_kinship(least, greatest);
        }
        if let Some((lit, tier)) = tied_by(clause) {
            self.raise(lit, tier, count);
        }
    }

    // The place of a pair of labels.
    fn pair_place(&self, one: usize, other: usize) -> usize {
        let row = one.min(other).saturating_mul(self.labels.len());
        row.saturating_add(one.max(other))
    }

    // Counts a clause that speaks of two labels.
    fn add_kinship(&mut self, one: usize, other: usize) {
        let place = self.pair_place(one, other);
        if let Some(count) = self.kinships.get_mut(place) {
            *count = count.saturating_add(1);
        }
    }

    // Notes what a clause fixes of a literal's label.
    fn raise(&mut self, lit: Lit, tier: Tier, count: u16) {
        if let Some(label) = label_of(lit, count) {
            if let Some(known) = self.labels.get_mut(label) {
                known.tier = known.tier.raised(tier);
            }
        }
    }

    // The label that comes next: of those outside the order one of the greatest tier, of these one of the greatest
    // kinship, and of these the first.
    fn next_label(&self) -> Option<Ranked> {
        let mut best: Option<(usize, Label)> = None;
        for (place, label) in self.labels.iter().enumerate() {
            let is_better = match best {
                None => !label.is_placed,
                Some((_, other)) => !label.is_placed && label.comes_before(other),
            };
            if is_better {
                best = Some((place, *label));
            }
        }
        let (place, label) = best?;
        Some(Ranked {
            label: u32::try_from(place).ok()?,
            tier: label.tier,
        })
    }

    // Puts a label into the order, to which others then have a greater kinship.
    fn place(&mut self, label: usize) {
        for other in 0..self.labels.len() {
            let place = self.pair_place(label, other);
            let more = self.kinships.get(place).copied().unwrap_or(0);
            if let Some(known) = self.labels.get_mut(other) {
                known.kinship = known.kinship.saturating_add(more);
            }
        }
        if let Some(known) = self.labels.get_mut(label) {
            known.is_placed = true;
        }
    }

    /// The labels in their order, with what is fixed of each.
    pub(crate) fn in_order(mut self, alloc: Global) -> Result<Vec<Ranked>, OutOfMemory> {
        let mut order = Vec::new(alloc);
        for _ in 0..self.labels.len() {
            if let Some(ranked) = self.next_label() {
                order.push(ranked)?;
                self.place(ranked.label as usize);
            }
        }
        Ok(order)
    }
}
