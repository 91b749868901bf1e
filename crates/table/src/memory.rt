//! A table in memory.
ghost use Rattle.std.specs.Prelude.{◌≡◌, refl, ◌↔◌, ◌+◌, ◌-◌, ◌^◌, ◌<◌, ◌≤◌, ℕ, true, if◌then◌else◌, IfOk, IfErr, IfSome, IfNone, length};
ghost use Rattle.std.specs.Prelude.{count_by};
ghost use Rattle.std.specs.BTreeSet.{contains};
ghost use Rattle.retrograde.specs.Changes.{fresh_record, counts_of};
ghost use Rattle.retrograde.specs.Edges.{IsAfter};
ghost use Rattle.retrograde.specs.Stored.{is_expanded, is_processed, loaded};
ghost use Rattle.table.specs.declared.fault.TableFault.TheVariants.{OutOfMemory};
ghost use Rattle.table.specs.Fit.{FitsTogether};
ghost use Rattle.table.specs.Memory.{AreNumbered, AreBetweenKnown, bytes_of_each, edge_cmp};

use crate::fault::TableFault;
use crate::fitting::{are_long, parts_fit};
use crate::table::Table;
use position_pack::Packed;
use retrograde::{Counts, Record, State};
use std::alloc::{AllocError, Global};
use std::collections::{BTreeSet, HashMap};

/// A table in memory.
#[derive(Drop)]
pub struct MemTable {
    positions: Vec<Packed>,
    /// The number of each position.
    numbers: HashMap<Packed, u32>,
    records: Vec<Record>,
    /// Each edge as the number that is led to and the number that leads there.
    edges: BTreeSet<(u32, u32)>,
    order: Vec<u32>,
    expanded: u32,
    processed: u32,
    ghost numbered: { AreNumbered positions.items numbers },
    ghost recorded: { length records.items ≡ length positions.items },
    ghost few: { length positions.items ≤ 2 ^ 24 },
    ghost known: { AreBetweenKnown (length positions.items) edges },
    ghost settled: { length order.items ≤ length positions.items },
    ghost expanded_is: { expanded ≡ count_by (λ r. is_expanded r.state) records.items },
    ghost processed_is: { processed ≡ count_by (λ r. is_processed r.state) records.items },
}

/// A copy of a position.
fn copied(packed: &Packed) -> Packed
    ensures { result.items ≡ packed.now.items }
{
    let mut copy = Packed::new();
    let _room = copy.try_extend_from_slice(packed);
    copy
}

/// The record of a position that is known and no more.
fn fresh() -> Record
    ensures { result ≡ fresh_record }
{
    Record {
        state: State::Known,
        winner: None,
        distance: 0,
        left: 0,
        successors: 0,
    }
}

/// The least number after the one given, if one was; none where no `u32` is after it.
fn first_after(after: Option<u32>) -> Option<u32>
    ensures some { IfSome result (λ first. (q : ℕ) → IsAfter after q ↔ (first ≤ q)) }
    ensures none { IfNone result ((q : ℕ) → IsAfter after q → 2 ^ 32 ≤ q) }
{
    match after {
        None => Some(0),
        Some(number) => number.checked_add(1),
    }
}

/// How many there are, once one that was counted or not is counted or not.
fn recounted(count: u32, was: bool, is: bool) -> u32
    requires some { was ≡ true → 0 < count }
    requires few { count < 2 ^ 32 - 1 }
    ensures { result + (if was then 1 else 0) ≡ count + (if is then 1 else 0) }
{
    match (was, is) {
        (true, false) => count - 1,
        (false, true) => count + 1,
        _ => count,
    }
}

impl MemTable {
    ghost use Rattle.table.specs.InMemory.{stored_in, counted_in};

    /// The table of a game that was just loaded: its start, and no more.
    pub fn new(alloc: Global, start: &Packed) -> Result<MemTable, TableFault>
        ensures loaded { IfOk result (λ t. stored_in t ≡ loaded start.now.items) }
        ensures honest { IfOk result (λ t. ⟦<MemTable as Table>⟧.is_honest t) }
        ensures memory { IfErr result (λ fault. fault ≡ OutOfMemory) }
    {
        let mut table = MemTable {
            positions: Vec::new(alloc),
            numbers: HashMap::new(alloc),
            records: Vec::new(alloc),
            edges: BTreeSet::new(alloc),
            order: Vec::new(alloc),
            expanded: 0,
            processed: 0,
        };
        table.add(start)?;
        Ok(table)
    }

    /// A copy of the table.
    pub fn copy(&self) -> Result<MemTable, TableFault>
        ensures same { IfOk result (λ t. stored_in t ≡ stored_in self.now) }
        ensures small { IfOk result (λ t. (counted_in t).known ≤ 2 ^ 24) }
        ensures memory { IfErr result (λ fault. fault ≡ OutOfMemory) }
    {
        let positions = self.positions.clone()?;
        let numbers = self.numbers.clone()?;
        let records = self.records.clone()?;
        let edges = self.edges.clone()?;
        let order = self.order.clone()?;
        Ok(MemTable {
            positions,
            numbers,
            records,
            edges,
            order,
            expanded: self.expanded,
            processed: self.processed,
        })
    }

    /// Its positions, by number.
    pub fn positions(&self) -> &[Packed]
        ensures { bytes_of_each result.now ≡ (stored_in self.now).positions }
    {
        &self.positions
    }

    /// Whether its parts fit together, and each position has this many bytes.
    pub fn fits(&self, alloc: Global, packed: u32) -> Result<bool, AllocError>
        ensures { IfOk result (λ fits. (fits ≡ true) ↔ FitsTogether packed (stored_in self.now)) }
    {
        let long = are_long(&self.positions, packed);
        let fit = parts_fit(
            alloc,
            &self.records,
            &self.order,
            self.expanded,
            self.processed,
        )?;
        Ok(fit & long)
    }

    /// The least number, from the one given on, that leads to this one.
    fn least_edge(&self, successor: u32, first: u32) -> Option<u32>
        ensures some { IfSome result (λ p. (contains edge_cmp self.now.edges (successor, p) ≡ true) × (first ≤ p)
            × ((q : ℕ) → contains edge_cmp self.now.edges (successor, q) ≡ true → first ≤ q → p ≤ q)) }
        ensures none { IfNone result ((q : ℕ) → contains edge_cmp self.now.edges (successor, q) ≡ true → first ≤ q → ⊥) }
    {
        let edge = self.edges.range((successor, first)..).next()?;
        if edge.0 != successor {
            return None;
        }
        Some(edge.1)
    }
}

impl Table for MemTable {
    ghost use Rattle.table.specs.InMemory.{stored_in, counted_in};

    ghost stored = { stored_in };

    ghost is_honest = { λ t. Unit {0} };

    ghost counted = { counted_in };

    ghost free = { λ t. 0 };

    ghost stays = { λ was is. Unit {0} };

    ghost goes_on = { λ was is. Unit {0} };

    ghost fails = { λ was is fault. fault ≡ OutOfMemory };

    ghost counts_are = { λ t honest. refl };

    ghost stays_here = { λ t. tt };

    ghost stays_free = { λ a b stays. refl };

    ghost full_free = { λ a b full. cc };

    ghost stays_then = { λ a b c first second. tt };

    ghost stays_goes_on = { λ a b stays. tt };

    ghost goes_on_then = { λ a b c first second. tt };

    ghost fails_since = { λ a b c fault ahead cause. cause };

    ghost memory_fails = { λ a b ahead. refl };

    fn counts(&self) -> Counts {
        Counts {
            known: self.positions.len() as u32,
            expanded: self.expanded,
            settled: self.order.len() as u32,
            processed: self.processed,
        }
    }

    fn number_of(&mut self, packed: &Packed) -> Result<Option<u32>, TableFault> {
        Ok(self.numbers.get(packed).copied())
    }

    fn packed(&mut self, number: u32) -> Result<Packed, TableFault> {
        Ok(copied(&self.positions[number as usize]))
    }

    fn record(&mut self, number: u32) -> Result<Record, TableFault> {
        Ok(self.records[number as usize])
    }

    fn add(&mut self, packed: &Packed) -> Result<u32, TableFault> {
        let number = self.positions.len() as u32;
        self.positions.reserve(1)?;
        self.records.reserve(1)?;
        self.numbers.insert(copied(packed), number)?;
        self.positions.push_reserved(copied(packed));
        self.records.push_reserved(fresh());
        Ok(number)
    }

    fn set_record(&mut self, number: u32, kept: Record) -> Result<(), TableFault> {
        let was = self.records[number as usize].state;
        let state = kept.state;
        self.records[number as usize] = kept;
        self.expanded = recounted(self.expanded, was.is_expanded(), state.is_expanded());
        self.processed = recounted(self.processed, was.is_processed(), state.is_processed());
        Ok(())
    }

    fn add_edge(&mut self, successor: u32, predecessor: u32) -> Result<(), TableFault> {
        self.edges.insert((successor, predecessor))?;
        Ok(())
    }

    fn next_edge(&mut self, successor: u32, after: Option<u32>) -> Result<Option<u32>, TableFault> {
        match first_after(after) {
            None => Ok(None),
            Some(first) => Ok(self.least_edge(successor, first)),
        }
    }

    fn push_settled(&mut self, number: u32) -> Result<(), TableFault> {
        self.order.push(number)?;
        Ok(())
    }

    fn settled_at(&mut self, place: u32) -> Result<u32, TableFault> {
        Ok(self.order[place as usize])
    }
}
