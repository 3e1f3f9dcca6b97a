//! The order of the definitions of a ruleset: a file may use a name before it defines it.
ghost use Rattle.std.specs.Prelude.{◌≡◌, ◌<◌, length, map, IfOk, IfErr};
ghost use Rattle.lgr_text.specs.DefinitionOrder as terms;
ghost use Rattle.lgr_text.specs.DefinitionOrder.{IsFirstBelow, IsOrder, IsOrderFault};

use crate::named_parts::{NamedPart, named_parts};
use crate::order_error::OrderError;
use crate::records::Definition;
use std::alloc::Global;

/// How many definitions a ruleset may have. A table has 256 rules at most.
const MAX_DEFINITIONS: usize = 1024;

/// The numbers of the definitions in an order in which each comes after those that it names.
pub fn definition_order(alloc: Global, definitions: &[Definition]) -> Result<Vec<usize>, OrderError>
    ensures order { IfOk result (λ order. IsOrder definitions.now order.items) }
    ensures fault { IfErr result (IsOrderFault definitions.now) }
{
    if definitions.len() > MAX_DEFINITIONS {
        return Err(OrderError::Limit(definitions[MAX_DEFINITIONS].line));
    }
    if let Some(number) = first_repeated(definitions) {
        return Err(OrderError::Repeated(definitions[number].line));
    }
    let parts = named_parts(alloc, definitions)?;
    if let Some(line) = first_undefined(&parts) {
        return Err(OrderError::Undefined(line));
    }
    let mut order = Vec::new(alloc);
    while let Some(number) = next_ready(&parts, &order) {
        order.push(number)?;
    }
    match first_left(definitions, &order) {
        Some(number) => Err(OrderError::Circular(definitions[number].line)),
        None => Ok(order),
    }
}

/// The number of the first definition that has the name of an earlier one.
fn first_repeated(definitions: &[Definition]) -> Option<usize>
    ensures { IsFirstBelow (length definitions.now) (terms.is_repeated definitions.now) result }
{
    for number in 0..definitions.len() {
        if is_repeated(definitions, number) {
            return Some(number);
        }
    }
    None
}

/// Whether an earlier definition has its name.
fn is_repeated(definitions: &[Definition], number: usize) -> bool
    requires { number < length definitions.now }
    ensures { result ≡ terms.is_repeated definitions.now number }
{
    let (earlier, _) = definitions.split_at(number);
    let name = definitions[number].name.as_slice();
    is_name_of_one(earlier, name)
}

fn is_name_of_one(definitions: &[Definition], name: &[u8]) -> bool
    ensures { result ≡ terms.is_name_of_one definitions.now name.now }
{
    definitions
        .iter()
        .any(|definition| definition.name.as_slice() == name)
}

/// The line on which the first definition is named that isn't there.
fn first_undefined(parts: &[Vec<NamedPart>]) -> Option<usize>
    ensures { result ≡ terms.first_undefined (map (λ p. p.items) parts.now) }
{
    for named in parts {
        if let Some(line) = undefined_among(named, parts.len()) {
            return Some(line);
        }
    }
    None
}

fn undefined_among(named: &[NamedPart], count: usize) -> Option<usize>
    ensures { result ≡ terms.undefined_among count named.now }
{
    for part in named {
        if part.number >= count {
            return Some(part.line);
        }
    }
    None
}

/// The number of the first definition that isn't in the order, while all that it names are.
fn next_ready(parts: &[Vec<NamedPart>], order: &[usize]) -> Option<usize>
    ensures { IsFirstBelow (length parts.now) (terms.is_next (map (λ p. p.items) parts.now) order.now) result }
{
    for number in 0..parts.len() {
        if !order.contains(&number) && are_placed(order, &parts[number]) {
            return Some(number);
        }
    }
    None
}

/// Whether all parts are in the order.
fn are_placed(order: &[usize], named: &[NamedPart]) -> bool
    ensures { result ≡ terms.are_placed order.now named.now }
{
    named.iter().all(|part| order.contains(&part.number))
}

/// The number of the first definition that isn't in the order.
fn first_left(definitions: &[Definition], order: &[usize]) -> Option<usize>
    ensures { IsFirstBelow (length definitions.now) (terms.is_left order.now) result }
{
    for number in 0..definitions.len() {
        if !order.contains(&number) {
            return Some(number);
        }
    }
    None
}
