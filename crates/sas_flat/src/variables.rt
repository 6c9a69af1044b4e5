// Variables in a few blocks of memory.
ghost use Rattle.std.specs.Prelude.{◌≡◌, ◌<◌, ◌+◌, ◌*◌, [], ◌∷◌, ◌++◌, length, slice_get, option_map, OnOk, OnErr};
ghost use Rattle.sas_core.specs.declared.parts.Variable.{Variable};
ghost use Rattle.std.specs.List.{sum_by};
ghost use Rattle.sas_core.specs.LineNumbers.{variable_height};
ghost use Rattle.sas_core.specs.Variables as spec;
ghost use Rattle.sas_flat.specs.Growing.{Hold};
ghost use Rattle.sas_flat.specs.Lists.{items_after, AreEnds, AreOpen};
ghost use Rattle.sas_flat.specs.Variables.{variable, variables_in, VariableColumnsAlign};

use crate::ends::Ends;
use crate::lists::Lists;
use std::alloc::{AllocError, Global};
use std::marker::Model;

/// The columns of variables. The value names of all variables are stored one after another; `ends` contains the end of each variable's
/// names. The value names of the next variable are appended as they are read; then `push` completes it, or `cut` removes them.
pub struct VariableColumns {
    names: Lists<u8>,
    layers: Vec<Option<u32>>,
    pub values: Lists<u8>,
    ends: Ends,
}

impl Drop for VariableColumns {
    fn drop(self) {
        let VariableColumns {
            names,
            layers,
            values,
            ends,
        } = self;
        drop(names);
        drop(layers);
        drop(values);
        drop(ends);
    }
}

/// A list of variables. In a contract its value is that list.
#[derive(Drop)]
pub struct Variables {
    columns: VariableColumns,
}

impl Model for Variables {
    ghost use Rattle.std.specs.Prelude.{List};
    ghost use Rattle.sas_core.specs.declared.parts.Variable.{Variable};
    ghost use Rattle.sas_flat.specs.Lists.{AreEnds};
    ghost use Rattle.sas_flat.specs.Variables.{variables_in, VariableColumnsAlign};

    ghost Value = { List Variable };

    ghost view = { λ v. variables_in v.columns };

    ghost invariant = { λ v. VariableColumnsAlign AreEnds v.columns };
}

impl VariableColumns {
    /// Returns the columns of no variables.
    pub fn new(alloc: Global) -> Self
        ensures { Hold (VariableColumnsAlign AreEnds) variables_in result [] }
    {
        VariableColumns {
            names: Lists::new(alloc),
            layers: Vec::new(alloc),
            values: Lists::new(alloc),
            ends: Ends::new(alloc),
        }
    }

    /// Completes a variable whose value names are appended. On `Err` (out of memory) the variables are unchanged.
    #[inline(always)]
    pub fn push(&mut self, name: &[u8], layer: Option<u32>) -> Result<(), AllocError>
        requires { VariableColumnsAlign AreOpen self.old }
        ensures ok { OnOk result (Hold (VariableColumnsAlign AreEnds) variables_in self.new
            (variables_in self.old
            ++ variable name.now layer (items_after self.old.values self.old.ends) ∷ [])) }
        ensures err { OnErr result
            (Hold (VariableColumnsAlign AreOpen) variables_in self.new (variables_in self.old)) }
    {
        self.layers.reserve(1)?;
        self.names.push(name)?;
        if let Err(error) = self.ends.push(self.values.len()) {
            self.names.truncate(self.ends.len());
            return Err(error);
        }
        self.layers.push(layer)?;
        Ok(())
    }

    /// Appends a variable whose values have these names. On `Err` (out of memory) these names may have been appended.
    pub fn append(
        &mut self,
        name: &[u8],
        layer: Option<u32>,
        values: &Lists<u8>,
    ) -> Result<(), AllocError>
        requires { VariableColumnsAlign AreEnds self.old }
        ensures ok { OnOk result (Hold (VariableColumnsAlign AreEnds) variables_in self.new
            (variables_in self.old ++ variable name.now layer values.now ∷ [])) }
        ensures err { OnErr result
            (Hold (VariableColumnsAlign AreOpen) variables_in self.new (variables_in self.old)) }
    {
        self.values.append(values)?;
        self.push(name, layer)?;
        Ok(())
    }

    /// Removes the value names after those of the last variable.
    #[cold]
    #[inline(never)]
    pub fn cut(&mut self)
        requires { VariableColumnsAlign AreOpen self.old }
        ensures { Hold (VariableColumnsAlign AreEnds) variables_in self.new
            (variables_in self.old) }
    {
        self.values.truncate(self.ends.start(self.ends.len()));
    }
}

impl Variables {
    /// Returns the variables in these columns.
    pub fn of_columns(columns: VariableColumns) -> Self
        requires { VariableColumnsAlign AreEnds columns }
        ensures { result ≡ variables_in columns }
    {
        Variables { columns }
    }

    /// Returns the number of variables.
    pub fn len(&self) -> usize
        ensures { result ≡ length self.now }
    {
        self.columns.ends.len()
    }

    /// Returns the number of values of the variable.
    pub(crate) fn range(&self, var: usize) -> usize
        requires { var < length self.now }
        ensures { result ≡ spec.range_of self.now var }
    {
        self.columns.ends.end(var) - self.columns.ends.start(var)
    }

    /// Returns the number of values of all variables.
    pub(crate) fn values(&self) -> usize
        ensures { 5 * length self.now + result ≡ sum_by variable_height self.now }
    {
        self.columns.values.len()
    }

    /// Returns the name of the variable at this index (from 0), or `None` if there are fewer variables.
    pub fn name(&self, var: usize) -> Option<&[u8]>
        ensures { option_map (λ name. name.now) result
            ≡ option_map (λ (v : Variable). v.name) (slice_get self.now var) }
    {
        if var < self.len() {
            Some(self.columns.names.get(var))
        } else {
            None
        }
    }

    /// Returns the layer of a derived variable, or `None` for a basic variable.
    pub fn layer(&self, var: usize) -> Option<u32>
        requires { var < length self.now }
        ensures { result ≡ spec.layer_of self.now var }
    {
        self.columns.layers.as_slice()[var]
    }

    /// Returns the name of a value of the variable, or `None` if the variable or the value doesn't exist.
    pub fn value_name(&self, var: usize, value: usize) -> Option<&[u8]>
        ensures { option_map (λ name. name.now) result ≡ spec.value_name self.now var value }
    {
        if var >= self.len() {
            return None;
        }
        let first = self.columns.ends.start(var);
        if value < self.columns.ends.end(var) - first {
            Some(self.columns.values.get(first + value))
        } else {
            None
        }
    }
}
