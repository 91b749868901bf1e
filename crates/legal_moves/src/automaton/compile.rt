//! The tables of an expression and of the patterns in it.
ghost use Rattle.std.specs.Prelude.{◌≡◌, List, map, ◌∷◌, [], ◌++◌, length, IfOk};
ghost use Rattle.rbg_game.specs.Rules.{Regex, cat_all, alt_all};
ghost use Rattle.rbg_game.specs.Meaning.{action_of, regex_of};
ghost use Rattle.legal_moves.specs.Glushkov.{is_nullable};
ghost use Rattle.legal_moves.specs.Tables.{inner_of, inner_in, IsStep, AreTables};
ghost use Rattle.legal_moves.specs.lemmas.Narrow.{AreFewLooks};
ghost use Rattle.legal_moves.specs.lemmas.Tables.{IsAdded};
ghost use Rattle.std.specs.Bool.{OnTrue};

use crate::automaton::relation::Relation;
use crate::automaton::table::{Draft, Ends, Step, Table, sets_of};
use crate::copies::copied_expression;
use crate::limits::FEW_STEPS;
use crate::marks::marks_of;
use rbg_game::rules::{Action, Rules};
use std::alloc::{AllocError, Global};

/// Adds the table of an expression, after those of the patterns in it, and gives its index.
#[cycle(tables)]
pub fn add_table(alloc: Global, tables: &mut Vec<Table>, rules: &Rules) -> Result<usize, AllocError>
    ensures { IfOk result (λ index. (es : List Regex) → AreTables es tables.old.items →
        (index ≡ length (es ++ inner_of (regex_of rules.now)))
        × AreTables ((es ++ inner_of (regex_of rules.now)) ++ regex_of rules.now ∷ []) tables.new.items) }
{
    let mut draft = Draft {
        steps: Vec::new(alloc),
        follows: Relation::new(alloc),
    };
    let ends = add_rules(alloc, tables, &mut draft, rules)?;
    let Draft { steps, mut follows } = draft;
    follows.relate_all(alloc, &[0], &ends.first)?;
    let follows = follows.lists(alloc)?;
    let index = tables.len();
    let lasts = marks_of(alloc, &ends.last)?;
    let looks = steps.iter().all(|step| step.is_look(tables));
    let narrow = are_few_looks(&steps);
    let sets = sets_of(alloc, &steps)?;
    tables.push(Table {
        steps,
        follows,
        ends,
        lasts,
        looks,
        narrow,
        sets,
    })?;
    Ok(index)
}

/// Whether there are few steps, each of which looks and asks no pattern.
fn are_few_looks(steps: &[Step]) -> bool
    ensures { OnTrue result (AreFewLooks steps.now) }
{
    steps.len() <= FEW_STEPS && steps.iter().all(|step| step.looks_alone())
}

#[cycle(tables)]
fn add_rules(
    alloc: Global,
    tables: &mut Vec<Table>,
    draft: &mut Draft,
    rules: &Rules,
) -> Result<Ends, AllocError>
    ensures added { IfOk result (λ ends. IsAdded (regex_of rules.now) tables.old.items tables.new.items draft.old draft.new ends) }
    ensures nullable { IfOk result (λ ends. ends.nullable ≡ is_nullable (regex_of rules.now)) }
{
    match rules {
        Rules::Action(action) => {
            let step = step_of(alloc, tables, action)?;
            draft.steps.push(step)?;
            let ends = Ends::one(alloc, draft.steps.len())?;
            Ok(ends)
        }
        Rules::Concat(parts) => add_parts(alloc, tables, draft, parts),
        Rules::Sum(branches) => add_branches(alloc, tables, draft, branches),
        Rules::Star(part) => {
            let ends = add_rules(alloc, tables, draft, part)?;
            draft.follows.relate_all(alloc, &ends.last, &ends.first)?;
            let Ends {
                nullable: _,
                first,
                last,
            } = ends;
            Ok(Ends {
                nullable: true,
                first,
                last,
            })
        }
    }
}

/// Adds parts that stand one after another.
#[cycle(tables)]
fn add_parts(
    alloc: Global,
    tables: &mut Vec<Table>,
    draft: &mut Draft,
    parts: &[Rules],
) -> Result<Ends, AllocError>
    ensures added { IfOk result (λ ends. IsAdded (cat_all
        (map regex_of parts.now)) tables.old.items tables.new.items draft.old draft.new ends) }
    ensures nullable { IfOk result (λ ends. ends.nullable ≡ is_nullable (cat_all (map regex_of parts.now))) }
{
    let mut ends = Ends::none(alloc, true);
    for part in parts {
        let next = add_rules(alloc, tables, draft, part)?;
        draft.follows.relate_all(alloc, &ends.last, &next.first)?;
        ends = ends.then(next)?;
    }
    Ok(ends)
}

/// Adds branches, one of which is taken.
#[cycle(tables)]
fn add_branches(
    alloc: Global,
    tables: &mut Vec<Table>,
    draft: &mut Draft,
    branches: &[Rules],
) -> Result<Ends, AllocError>
    ensures added { IfOk result (λ ends. IsAdded (alt_all
        (map regex_of branches.now)) tables.old.items tables.new.items draft.old draft.new ends) }
    ensures nullable { IfOk result (λ ends. ends.nullable ≡ is_nullable (alt_all (map regex_of branches.now))) }
{
    let mut ends = Ends::none(alloc, branches.is_empty());
    for branch in branches {
        let next = add_rules(alloc, tables, draft, branch)?;
        ends = ends.or(&next)?;
    }
    Ok(ends)
}

#[cycle(tables)]
fn step_of(alloc: Global, tables: &mut Vec<Table>, action: &Action) -> Result<Step, AllocError>
    ensures { IfOk result (λ step. (es : List Regex) → AreTables es tables.old.items →
        AreTables (es ++ inner_in (action_of action.now)) tables.new.items
        × IsStep (es ++ inner_in (action_of action.now)) step (action_of action.now)) }
{
    match action {
        Action::Shift(label) => Ok(Step::Act(Action::Shift(*label))),
        Action::On(pieces) => {
            let pieces = Vec::from_slice(alloc, pieces)?;
            Ok(Step::Act(Action::On(pieces)))
        }
        Action::Off(piece) => Ok(Step::Act(Action::Off(*piece))),
        Action::Assignment(variable, right) => {
            let right = copied_expression(alloc, right)?;
            Ok(Step::Act(Action::Assignment(*variable, right)))
        }
        Action::Comparison(left, comparison, right) => {
            let left = copied_expression(alloc, left)?;
            let right = copied_expression(alloc, right)?;
            Ok(Step::Act(Action::Comparison(left, *comparison, right)))
        }
        Action::Switch(role) => Ok(Step::Act(Action::Switch(*role))),
        Action::Pattern(positive, inner) => {
            let index = add_table(alloc, tables, inner)?;
            Ok(Step::Ask(*positive, index))
        }
    }
}
