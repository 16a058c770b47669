//! Random boards of links: some free, some with a ring, some with links that stand twice.

use crate::board::Board;
use crate::compare::Trial;
use crate::random::Random;
use crate::words::Words;
use differences::{Link, Links};
use std::alloc::{AllocError, Global};
use std::fmt;

pub const SEED: u64 = 20_260_601;

/// Links, by their words.
#[derive(Drop)]
pub struct LinkWords {
    links: Vec<Link>,
}

impl fmt::Display for LinkWords {
    fn fmt<W: fmt::Write>(&self, f: &mut fmt::Formatter<W>) -> fmt::Result {
        f.write_str("links")?;
        for link in &self.links {
            let Link { left, right, bound } = *link;
            write!(f, " ({left}, {right}, {bound})")?;
        }
        Ok(())
    }
}

/// Column `left` is at most column `right` plus `bound`.
fn keeps(link: &Link, plan: &[i32]) -> bool {
    match (plan.get(link.left), plan.get(link.right)) {
        (Some(left), Some(right)) => i64::from(*left) <= i64::from(*right) + i64::from(link.bound),
        _ => false,
    }
}

impl Words for LinkWords {
    fn allows(&self, plan: &[i32]) -> bool {
        self.links.iter().all(|link| keeps(link, plan))
    }
}

/// A link between two different columns, with a bound that may bind.
fn draw_link(random: &mut Random, board: &Board) -> Link {
    let (left, right) = random.two_below(board.width());
    let bound = random.upwards(board.distance(left, right).saturating_sub(5), 15);
    Link::new(left, right, bound)
}

/// Up to six links.
fn add_free(links: &mut Vec<Link>, random: &mut Random, board: &Board) -> Result<(), AllocError> {
    for _ in 0..random.below(7) {
        links.push(draw_link(random, board))?;
    }
    Ok(())
}

/// A ring through all columns, of a length from -2 to 2.
fn add_ring(links: &mut Vec<Link>, random: &mut Random, board: &Board) -> Result<(), AllocError> {
    let mut length = 0i32;
    for (left, right) in (0..board.width()).zip(1..board.width()) {
        let bound = random.upwards(board.distance(left, right).saturating_sub(5), 11);
        length = length.saturating_add(bound);
        links.push(Link::new(left, right, bound))?;
    }
    let last = board.width().saturating_sub(1);
    let wanted = random.upwards(-2, 5);
    links.push(Link::new(last, 0, wanted.saturating_sub(length)))?;
    Ok(())
}

/// The first link once more, and again with another bound.
fn add_copies(links: &mut Vec<Link>, random: &mut Random) -> Result<(), AllocError> {
    if let Some(first) = links.first().copied() {
        let bound = random.upwards(first.bound.saturating_sub(1), 3);
        links.push(first)?;
        links.push(Link { bound, ..first })?;
    }
    Ok(())
}

/// One list in four has a ring, and one in four has links that stand twice.
fn draw_links(heap: Global, random: &mut Random, board: &Board) -> Result<Vec<Link>, AllocError> {
    let mut links = Vec::new(heap);
    if board.width() < 2 {
        return Ok(links);
    }
    match random.below(4) {
        0 => {
            add_ring(&mut links, random, board)?;
            add_free(&mut links, random, board)?;
        }
        1 => {
            add_free(&mut links, random, board)?;
            add_copies(&mut links, random)?;
        }
        _ => add_free(&mut links, random, board)?,
    }
    Ok(links)
}

pub(crate) fn draw(
    heap: Global,
    random: &mut Random,
    rule: &mut Links,
) -> Result<Trial<LinkWords>, AllocError> {
    let columns = random.below(4).saturating_add(1);
    let board = Board::draw(heap, random, columns)?;
    let links = draw_links(heap, random, &board)?;
    *rule = Links::fresh();
    Ok(Trial {
        set: rule.set(columns, links.as_slice()),
        words: LinkWords { links },
        windows: board.windows(heap)?,
    })
}
