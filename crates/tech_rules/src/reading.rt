//! Reading a rules file.

ghost use Rattle.read_base.specs.Answers.{AnswersAs};
ghost use Rattle.tech_rules.specs.RulesOf.{rules_of, told_of};

use crate::document::table_of;
use crate::stated::values_in;
use crate::{Rules, RulesFault};
use std::alloc::Global;

/// The rules of a rules file, a text of TOML as `docs/RULES.md` says. It answers the first of these that there is: Toml where the bytes
/// are no UTF-8 text of TOML; then for each key in the order of `Key`, `decimals` only from version 2 on, Missing where it is absent or
/// its table is no table, and Range where its value is of another kind or out of its range; then Tight with the number of the first of
/// the twelve rules that fails. Memory can come at any time. Words that are no keys are passed over.
#[tactic(auto, unfolding(crate::specs::RulesOf::rules_of))]
pub fn read_rules(alloc: Global, bytes: &[u8]) -> Result<Rules, RulesFault>
    ensures { AnswersAs (λ rules. rules) told_of result (rules_of bytes.now) }
{
    let Some(table) = table_of(alloc, bytes)? else {
        return Err(RulesFault::Toml);
    };
    let stated = values_in(&table)?;
    if let Some(rule) = stated.broken_rule() {
        return Err(RulesFault::Tight(rule));
    }
    Ok(stated.rules(alloc)?)
}
