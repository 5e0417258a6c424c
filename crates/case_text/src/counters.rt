//! Numbers as they are written in case files, and the counters that stand for numbers between `<` and `>`.
use crate::trouble::{Trouble, amiss};
use std::alloc::{AllocError, Global};

/// The number that a text stands for: decimal, or hexadecimal after `0x`. `None` for any other text, and for 2^64 and
/// above.
pub fn number_of(text: &str) -> Option<u64> {
    let (digits, radix) = match text.strip_prefix("0x") {
        Some(digits) => (digits, 16),
        None => (text, 10),
    };
    if digits.starts_with('+') {
        return None;
    }
    u64::from_str_radix(digits, radix).ok()
}

/// Counters by their names, the newest last. A name stands for the newest counter that has it.
#[derive(Drop)]
pub struct Counters {
    alloc: Global,
    counters: Vec<(String, u64)>,
}

impl Counters {
    /// The list without a counter.
    pub fn new(alloc: Global) -> Counters {
        Counters {
            alloc,
            counters: Vec::new(alloc),
        }
    }

    /// Adds a counter with this name and this value, for which the line with this number asks. It is a trouble if the
    /// name is a number, because the counter could not be told from that number.
    pub fn push(&mut self, line: u32, name: &str, value: u64) -> Result<(), Trouble> {
        if number_of(name).is_some() {
            let why = format!(in self.alloc; "{name} is a number, not a counter");
            return Err(amiss(line, why));
        }
        self.counters
            .push((String::from_str(self.alloc, name)?, value))?;
        Ok(())
    }

    /// Adds `step` to the newest counter. If its value is then past `last`, or 2^64 or more, the counter is removed.
    /// The result tells whether it stays.
    pub fn count_by(&mut self, step: u64, last: u64) -> Result<bool, AllocError> {
        let Some((name, value)) = self.counters.pop() else {
            return Ok(false);
        };
        let next = value.checked_add(step).filter(|next| *next <= last);
        let Some(next) = next else {
            return Ok(false);
        };
        self.counters.push((name, next))?;
        Ok(true)
    }

    /// The text with each sum between `<` and `>` filled in. A sum is made of numbers and counters with `*` and `+`
    /// between them. A term that names no counter here stays between `<` and `>`, beside the sum of the others. So does
    /// a term with which the sum would be 2^64 or more.
    pub fn fill(&self, text: &str) -> Result<String, AllocError> {
        let mut filled = String::new(self.alloc);
        let mut pieces = text.split('<');
        filled.push_str(pieces.next().unwrap_or(""))?;
        for piece in pieces {
            let (sum, rest) = piece.split_once('>').unwrap_or((piece, ""));
            filled.push_str(&self.fill_sum(sum)?)?;
            filled.push_str(rest)?;
        }
        Ok(filled)
    }

    /// The counters and their values, each after a comma.
    pub fn told(&self) -> Result<String, AllocError> {
        let mut text = String::new(self.alloc);
        for (name, value) in self.counters.iter() {
            text.push_str(&format!(in self.alloc; ", {name} {value}")?)?;
        }
        Ok(text)
    }

    fn fill_sum(&self, sum: &str) -> Result<String, AllocError> {
        let mut total = 0u64;
        let mut unknown = String::new(self.alloc);
        for term in sum.split('+') {
            match self
                .product(term)
                .and_then(|value| total.checked_add(value))
            {
                Some(sum) => total = sum,
                None => {
                    unknown.push_str(term)?;
                    unknown.push_str("+")?;
                }
            }
        }
        if unknown.is_empty() {
            return format!(in self.alloc; "{total}");
        }
        format!(in self.alloc; "<{unknown}{total}>")
    }

    /// The product of numbers and counters with `*` between them, if they are known and it is below 2^64.
    fn product(&self, term: &str) -> Option<u64> {
        let mut product = 1u64;
        for factor in term.split('*') {
            let mut counters = self.counters.iter().rev();
            let counter = counters.find(|(name, _)| name.as_str() == factor);
            let value = counter.map_or(number_of(factor), |(_, value)| Some(*value));
            product = product.checked_mul(value?)?;
        }
        Some(product)
    }
}
