//! What the lines of a ruleset define.
ghost use Rattle.std.specs.Prelude.{◌≡◌, ◌+◌, ◌-◌, ◌<◌, ◌≤◌, ◌^◌, [], ◌∷◌, ◌++◌, true, nat_le, length, map, IfErr};
ghost use Rattle.std.specs.Prelude.{MatchResult, OnOk, OnErr, Some, Err};
ghost use Rattle.std.specs.List.{AllByRecursion};
ghost use Rattle.label_patterns.specs.Matches.{HasItsSets};
ghost use Rattle.label_patterns.specs.Trees.{pattern};
ghost use Rattle.ruleset_text.specs.ActionForms.{action};
ghost use Rattle.ruleset_text.specs.Actions.{knows_action};
ghost use Rattle.ruleset_text.specs.Canonical.{definition_text};
ghost use Rattle.ruleset_text.specs.Definitions as words;
ghost use Rattle.ruleset_text.specs.Definitions.{added, all_atoms, canonical_size, defined, definition_atoms};
ghost use Rattle.ruleset_text.specs.Definitions.{nothing_defined, with_definition};
ghost use Rattle.ruleset_text.specs.Definitions.{rule_name as name_of_rule};
ghost use Rattle.ruleset_text.specs.DefinitionForms.{Adds, Refused};
ghost use Rattle.ruleset_text.specs.DefinitionPlaces.{definition_place, place_of};
ghost use Rattle.ruleset_text.specs.DefinitionTrees as trees;
ghost use Rattle.ruleset_text.specs.DemandTrees.{demand};
ghost use Rattle.ruleset_text.specs.inner.DefinitionSteps.{AreFound, IsEarlier, IsFaultless, IsFresh, Leaves};
ghost use Rattle.ruleset_text.specs.Names.{is_one_of as is_among};
ghost use Rattle.ruleset_text.specs.PlacedLexemes.{unplaced};
ghost use Rattle.ruleset_text.specs.WellFormed.{AreDefinitions};

use crate::action::NamedAction;
use crate::definition::{Definition, DemandKind, canonical_len};
use crate::definition_faults::{atoms_left_after, faults_of};
use crate::definition_form::has_form;
use crate::definition_line::DefinitionLine;
use crate::definition_reading::{ReadDefinition, read_definition};
use crate::fault::{DefinitionFault, DefinitionRefusal, FaultPlace, FoundFaults};
use crate::limits::{ATOM_LIMIT, DEFINITION_LIMIT, RULE_LIMIT, SET_LIMIT, TYPE_LIMIT};
use crate::names::{
    Name, PREDEFINED_TYPES, is_one_of, is_type, number_of, predefined_number, predefined_type,
};
use crate::reading::Earlier;
use idn_class::Properties;
use label_patterns::{PatternTree, PointSet};
use std::alloc::{AllocError, Global};
use std::marker::Model;

/// A demand on each label.
#[derive(Drop)]
pub struct Demand {
    pub kind: DemandKind,
    pub pattern: PatternTree,
}

/// What the lines of a ruleset define so far. A set goes by its number, and so do a rule and a type.
#[derive(Drop)]
pub struct Definitions {
    /// Whose classes are asked.
    properties: Properties,
    /// Those that are not predefined.
    types: Vec<Name>,
    set_names: Vec<Name>,
    sets: Vec<PointSet>,
    rule_names: Vec<Name>,
    /// Context rules and whole-label rules.
    rules: Vec<PatternTree>,
    demands: Vec<Demand>,
    actions: Vec<NamedAction>,
    /// How many atoms further patterns may have.
    atoms_left: usize,
    /// How many bytes the canonical lines have, with their line feeds.
    written: usize,
}

impl Model for Definitions {
    ghost use Rattle.ruleset_text.specs.Definitions.{Definitions};
    ghost use Rattle.ruleset_text.specs.DefinitionCodes.{definitions_code};

    ghost Value = { Definitions };

    ghost coded = { definitions_code };

    ghost use Rattle.ruleset_text.specs.inner.Held.{held, IsHeld};

    ghost view = { λ s. held s };

    ghost invariant = { λ s. IsHeld s };
}

impl Definitions {
    /// No definition yet.
    pub fn new(alloc: Global, properties: Properties) -> Self
        ensures { result ≡ nothing_defined properties }
    {
        Definitions {
            properties,
            types: Vec::new(alloc),
            set_names: Vec::new(alloc),
            sets: Vec::new(alloc),
            rule_names: Vec::new(alloc),
            rules: Vec::new(alloc),
            demands: Vec::new(alloc),
            actions: Vec::new(alloc),
            atoms_left: ATOM_LIMIT,
            written: 0,
        }
    }

    /// Whose classes are asked.
    pub fn properties(&self) -> Properties
        ensures { result ≡ self.now.properties }
    {
        self.properties
    }

    /// The names of the variant types that are not predefined.
    pub fn types(&self) -> &[Name]
        ensures is { result.now ≡ self.now.types }
        ensures few { length self.now.types ≤ 57 }
    {
        &self.types
    }

    /// Whether a variant type has this name.
    pub fn has_type(&self, name: &[u8]) -> bool
        ensures { result ≡ is_among (words.type_names self.now) name.now }
    {
        is_type(&self.types, name)
    }

    /// The number of the variant type of this name, or how many types there are, at most 62. The predefined ones have
    /// the numbers 0 to 4 (RFC 7940, section 7.3), and the others the next ones, in the order of their lines.
    pub fn type_number(&self, name: &[u8]) -> usize
        ensures is { result ≡ words.type_number self.now name.now }
        ensures few { result ≤ 62 }
    {
        let number = predefined_number(name);
        if number < PREDEFINED_TYPES {
            return number;
        }
        PREDEFINED_TYPES + number_of(&self.types, name)
    }

    /// The name of the variant type of this number; nothing, where there is none.
    pub fn type_name(&self, number: usize) -> &[u8]
        ensures { result.now ≡ words.type_name self.now number }
    {
        if number < PREDEFINED_TYPES {
            return predefined_type(number);
        }
        match self.types.get(number - PREDEFINED_TYPES) {
            Some(name) => name.as_slice(),
            None => {
                let nothing: &[u8] = &[];
                nothing
            }
        }
    }

    /// The names of the sets.
    pub fn set_names(&self) -> &[Name]
        ensures is { result.now ≡ self.now.set_names }
        ensures without_fault { AreDefinitions self.now }
    {
        &self.set_names
    }

    /// The sets, by their number.
    pub fn sets(&self) -> &[PointSet]
        ensures { result.now ≡ self.now.sets }
    {
        &self.sets
    }

    /// The names of the rules.
    pub fn rule_names(&self) -> &[Name]
        ensures is { result.now ≡ self.now.rule_names }
        ensures few { length self.now.rule_names ≤ 256 }
        ensures each { length self.now.rules ≡ length self.now.rule_names }
    {
        &self.rule_names
    }

    /// The name of the rule of this number, in at most 32 bytes; nothing, where there is none.
    pub fn rule_name(&self, number: u8) -> &[u8]
        ensures is { result.now ≡ name_of_rule self.now number }
        ensures short { length result.now ≤ 32 }
    {
        match self.rule_names.get(number as usize) {
            Some(name) => name.as_slice(),
            None => {
                let nothing: &[u8] = &[];
                nothing
            }
        }
    }

    /// The contexts of context rules and the patterns of whole-label rules, by their number.
    pub fn rules(&self) -> &[PatternTree]
        ensures is { map pattern result.now ≡ self.now.rules }
        ensures known { AllByRecursion (HasItsSets (length self.now.sets)) self.now.rules }
    {
        &self.rules
    }

    /// The demands.
    pub fn demands(&self) -> &[Demand]
        ensures is { map demand result.now ≡ self.now.demands }
        ensures known { AllByRecursion (λ d. HasItsSets (length self.now.sets) d.pattern) self.now.demands }
    {
        &self.demands
    }

    /// The actions.
    pub fn actions(&self) -> &[NamedAction]
        ensures is { map action result.now ≡ self.now.actions }
        ensures known { AllByRecursion
            (λ a. knows_action (words.type_names self.now) (words.whole_rules self.now) a ≡ true) self.now.actions }
    {
        &self.actions
    }

    /// How many atoms further patterns may have.
    pub fn atoms_left(&self) -> usize
        ensures { result ≡ 4096 - all_atoms self.now }
    {
        self.atoms_left
    }

    /// How many bytes the canonical lines have, each with its line feed.
    pub fn canonical_len(&self) -> usize
        ensures size { result ≡ canonical_size self.now }
        ensures without_fault { AreDefinitions self.now }
    {
        self.written
    }

    /// Adds what a line defines. The canonical text of the definitions may have `limit` bytes. An `Err` changes
    /// nothing.
    pub fn define(
        &mut self,
        alloc: Global,
        limit: usize,
        line: DefinitionLine<'_>,
    ) -> Result<(), DefinitionRefusal>
        requires few { length line.after < 2 ^ 63 }
        ensures read { Leaves result self.new
            (defined limit self.old line.entry.keyword (unplaced line.entry.after)) }
        ensures place { IfErr result (λ r. r.place ≡ definition_place self.old r.fault line.entry) }
        ensures err { OnErr result (self.new ≡ self.old) }
    {
        let (key, name) = (line.place, line.after.first_place());
        let read = read_definition(alloc, self.earlier(), line)?;
        let len = canonical_len(alloc, self.set_names(), &read.definition)?;
        if let Err(fault) = self.check(limit, &read.definition, read.faults.found(), len) {
            return Err(fault.at(self.place_of(fault, key, &read, name)));
        }
        self.add(read.definition, read.atoms_left, len)?;
        Ok(())
    }

    /// Adds a definition that isn't read from a line. `Syntax` is told of one that no line spells, and else the first
    /// fault, as of a line. The canonical text of the definitions may have `limit` bytes. An `Err` changes nothing.
    pub fn push(
        &mut self,
        alloc: Global,
        limit: usize,
        definition: Definition,
    ) -> Result<(), DefinitionFault>
        ensures added { Adds limit self.old (trees.definition definition) result self.new }
        ensures err { OnErr result (self.new ≡ self.old) }
    {
        let len = self.len_of_fresh(alloc, limit, &definition)?;
        let atoms_left = atoms_left_after(&definition, self.atoms_left);
        self.add(definition, atoms_left, len)?;
        Ok(())
    }

    /// What is known before a further line.
    fn earlier(&self) -> Earlier<'_>
        ensures { IsEarlier result self.now }
    {
        Earlier {
            types: &self.types,
            sets: &self.set_names,
            rule_names: &self.rule_names,
            rules: &self.rules,
            atoms_left: self.atoms_left,
            properties: self.properties,
        }
    }

    /// How many bytes the canonical line of a definition has that isn't read from a line, or its first fault.
    fn len_of_fresh(
        &self,
        alloc: Global,
        limit: usize,
        definition: &Definition,
    ) -> Result<usize, DefinitionFault>
        ensures { MatchResult result
            (IsFresh limit self.now (trees.definition definition.now))
            (Refused limit self.now (trees.definition definition.now)) }
    {
        if !has_form(definition) {
            return Err(DefinitionFault::Syntax);
        }
        let found = faults_of(alloc, self.earlier(), definition)?;
        let len = canonical_len(alloc, self.set_names(), definition)?;
        self.check(limit, definition, found, len)?;
        Ok(len)
    }

    /// Refuses a definition, if something is wrong with it: the first thing that is, in this order, where these faults
    /// were found. Its canonical line has `len` bytes.
    fn check(
        &self,
        limit: usize,
        definition: &Definition,
        found: FoundFaults,
        len: usize,
    ) -> Result<(), DefinitionFault>
        requires found { AreFound self.now (trees.definition definition.now) found }
        requires len { len ≡ length (definition_text self.now.set_names (trees.definition definition.now)) }
        ensures { MatchResult result
            (λ _. IsFaultless limit self.now (trees.definition definition.now))
            (λ fault. with_definition limit self.now (Some (trees.definition definition.now)) ≡ Err fault) }
    {
        if self.has_most(definition) {
            return Err(DefinitionFault::Limit);
        }
        if found.limit {
            return Err(DefinitionFault::Limit);
        }
        if found.name {
            return Err(DefinitionFault::NoSuchName);
        }
        if self.is_line_over_limit(limit, len) {
            return Err(DefinitionFault::Limit);
        }
        if found.class {
            return Err(DefinitionFault::BadClass);
        }
        if self.has_same_name(definition) {
            return Err(DefinitionFault::SameName);
        }
        Ok(())
    }

    /// Where a line has this fault: at its keyword or its name, or where reading told it.
    fn place_of(
        &self,
        fault: DefinitionFault,
        key: FaultPlace,
        read: &ReadDefinition,
        name: Option<FaultPlace>,
    ) -> Option<FaultPlace>
        ensures { result ≡ place_of self.now fault key (trees.definition read.now.definition) read.now.faults name }
    {
        match fault {
            DefinitionFault::Limit => {
                if self.has_most(&read.definition) {
                    Some(key)
                } else {
                    read.faults.limit
                }
            }
            DefinitionFault::NoSuchName => read.faults.name,
            DefinitionFault::BadClass => read.faults.class,
            DefinitionFault::SameName => name,
            _ => None,
        }
    }

    /// Whether a canonical line of so many bytes is too long, or goes past what the canonical text may have.
    fn is_line_over_limit(&self, limit: usize, len: usize) -> bool
        ensures { result ≡ words.is_line_over_limit limit self.now len }
    {
        len > DEFINITION_LIMIT || len >= limit.saturating_sub(self.written)
    }

    /// Whether as many as may be are defined of its kind.
    fn has_most(&self, definition: &Definition) -> bool
        ensures { result ≡ words.has_most self.now (trees.definition definition.now) }
    {
        match definition {
            Definition::VariantType(_) => self.types.len() >= TYPE_LIMIT,
            Definition::Set(_, _) => self.sets.len() >= SET_LIMIT,
            Definition::Rule(_, _) => self.has_most_rules(),
            Definition::Demand(_, _) => self.has_most_rules(),
            Definition::Action(_) => self.has_most_rules(),
        }
    }

    /// Whether as many rules, demands and actions as may be are defined.
    fn has_most_rules(&self) -> bool
        ensures { result ≡ nat_le 256 (words.rule_lines self.now) }
    {
        self.rules.len() + self.demands.len() + self.actions.len() >= RULE_LIMIT
    }

    /// Whether its name is that of a type, a set or a rule.
    fn has_same_name(&self, definition: &Definition) -> bool
        ensures { result ≡ words.has_same_name self.now (trees.definition definition.now) }
    {
        match definition {
            Definition::VariantType(name) => self.has_name(name),
            Definition::Set(name, _) => self.has_name(name),
            Definition::Rule(name, _) => self.has_name(name),
            Definition::Demand(_, _) => false,
            Definition::Action(_) => false,
        }
    }

    fn has_name(&self, name: &Name) -> bool
        ensures { result ≡ is_among (words.all_names self.now) name.now }
    {
        self.has_type(name.as_slice()) || self.has_set_or_rule(name)
    }

    fn has_set_or_rule(&self, name: &Name) -> bool
        ensures { result ≡ is_among (self.now.set_names ++ self.now.rule_names) name.now }
    {
        is_one_of(&self.set_names, name.as_slice()) || is_one_of(&self.rule_names, name.as_slice())
    }

    /// Adds the definition of a line. An `Err` changes nothing.
    fn add(
        &mut self,
        definition: Definition,
        atoms_left: usize,
        len: usize,
    ) -> Result<(), AllocError>
        requires without_fault { AreDefinitions (added self.old (trees.definition definition)) }
        requires atoms { atoms_left ≡ 4096 - all_atoms self.old - definition_atoms (trees.definition definition) }
        requires len { len ≡ length (definition_text self.old.set_names (trees.definition definition)) }
        requires room { canonical_size self.old + (len + 1) < 2 ^ 64 }
        ensures ok { OnOk result (self.new ≡ added self.old (trees.definition definition)) }
        ensures err { OnErr result (self.new ≡ self.old) }
    {
        match definition {
            Definition::VariantType(name) => append(&mut self.types, name),
            Definition::Set(name, set) => append_named(
                &mut self.set_names,
                &mut self.sets,
                name,
                set,
            ),
            Definition::Rule(name, contexts) => append_named(
                &mut self.rule_names,
                &mut self.rules,
                name,
                contexts,
            ),
            Definition::Demand(kind, pattern) => append(
                &mut self.demands,
                Demand { kind, pattern },
            ),
            Definition::Action(action) => append(&mut self.actions, action),
        }?;
        self.atoms_left = atoms_left;
        self.written += len + 1;
        Ok(())
    }
}

/// Appends an item. An `Err` changes nothing.
fn append<T: Drop>(items: &mut Vec<T>, item: T) -> Result<(), AllocError>
    ensures ok { OnOk result (items.new.items ≡ items.old.items ++ item ∷ []) }
    ensures err { OnErr result (items.new.items ≡ items.old.items) }
{
    items.push(item)?;
    Ok(())
}

/// Appends an item and its name. An `Err` changes nothing.
fn append_named<T: Drop>(
    names: &mut Vec<Name>,
    items: &mut Vec<T>,
    name: Name,
    item: T,
) -> Result<(), AllocError>
    ensures name { OnOk result (names.new.items ≡ names.old.items ++ name ∷ []) }
    ensures item { OnOk result (items.new.items ≡ items.old.items ++ item ∷ []) }
    ensures names { OnErr result (names.new.items ≡ names.old.items) }
    ensures items { OnErr result (items.new.items ≡ items.old.items) }
{
    items.reserve(1)?;
    names.push(name)?;
    items.push(item).unwrap();
    Ok(())
}
