//! A sum, by its words.

use crate::words::Words;
use std::fmt;

/// Whether the values of the summands may stand in any order, or have to rise.
#[derive(Clone, Copy)]
pub enum Order {
    Any,
    Rising,
}

/// A total and its summands.
#[derive(Drop)]
pub struct SumWords {
    pub total: usize,
    pub summands: Vec<usize>,
    pub order: Order,
}

impl fmt::Display for SumWords {
    fn fmt<W: fmt::Write>(&self, f: &mut fmt::Formatter<W>) -> fmt::Result {
        let total = self.total;
        write!(f, "total {total} of")?;
        for column in &self.summands {
            write!(f, " {column}")?;
        }
        match self.order {
            Order::Any => Ok(()),
            Order::Rising => f.write_str(", rising"),
        }
    }
}

impl SumWords {
    /// The values of the summands added up, if the plan has them.
    fn added(&self, plan: &[i32]) -> Option<i64> {
        self.summands.iter().try_fold(0i64, |added, column| {
            let value = plan.get(*column)?;
            Some(added.saturating_add(i64::from(*value)))
        })
    }

    /// Whether no summand is below the one before it, if they have to rise.
    fn in_order(&self, plan: &[i32]) -> bool {
        match self.order {
            Order::Any => true,
            Order::Rising => self
                .summands
                .iter()
                .is_sorted_by_key(|column| plan.get(*column).copied()),
        }
    }
}

impl Words for SumWords {
    /// The total equals the summands added up, and these are in order.
    fn allows(&self, plan: &[i32]) -> bool {
        match (plan.get(self.total), self.added(plan)) {
            (Some(total), Some(added)) => i64::from(*total) == added && self.in_order(plan),
            _ => false,
        }
    }
}
