//! The answers to requests that display layers.
ghost use Rattle.std.specs.Prelude.{IfOk};
ghost use Rattle.statement_parser.specs.Lines.{ask_grid, ask_show, ask_legend, ask_table, ask_stamps};
ghost use Rattle.map_machine.specs.Answers.{answer_to};
ghost use Rattle.map_session.specs.Said.{Says};
ghost use Rattle.map_session.specs.Asked.{state_asked, ReadsFor};

use crate::answers::Asked;
use crate::replies::Reply;
use grid_text::print_grid;
use layer_tiles::Tally;
use map_display::{print_legend, print_show, print_stamps, print_table};
use map_machine::Kind;
use map_nums::NoMemory;
use map_words::Name;
use std::alloc::Global;

impl Asked<'_> {
    /// To `grid`.
    pub(crate) fn grid<M: Tally>(
        &self,
        alloc: Global,
        name: &Name,
        tally: &mut M,
    ) -> Result<Reply, NoMemory>
        ensures says { IfOk result (Says (answer_to (state_asked self.now) (ask_grid name.now)) Kind.Shown) }
        ensures reads { ReadsFor (state_asked self.now) (ask_grid name.now) (M.counts tally.old) (M.counts tally.new) }
    {
        match self.engine.layer(name) {
            Err(missing) => self.undefined(alloc, name, missing),
            Ok(layer) => {
                let text = print_grid(alloc, self.header, layer, tally)?;
                Ok(Reply::shown(text))
            }
        }
    }

    /// To `show`.
    pub(crate) fn show<M: Tally>(
        &self,
        alloc: Global,
        name: &Name,
        tally: &mut M,
    ) -> Result<Reply, NoMemory>
        ensures says { IfOk result (Says (answer_to (state_asked self.now) (ask_show name.now)) Kind.Shown) }
        ensures reads { ReadsFor (state_asked self.now) (ask_show name.now) (M.counts tally.old) (M.counts tally.new) }
    {
        match self.engine.layer(name) {
            Err(missing) => self.undefined(alloc, name, missing),
            Ok(layer) => {
                let symbols = self.engine.symbols();
                let text = print_show(alloc, name, layer, symbols, tally)?;
                Ok(Reply::shown(text))
            }
        }
    }

    /// To `legend`.
    pub(crate) fn legend<M: Tally>(
        &self,
        alloc: Global,
        name: &Name,
        tally: &mut M,
    ) -> Result<Reply, NoMemory>
        ensures says { IfOk result (Says (answer_to (state_asked self.now) (ask_legend name.now)) Kind.Shown) }
        ensures reads { ReadsFor (state_asked self.now) (ask_legend name.now) (M.counts tally.old) (M.counts tally.new) }
    {
        match self.engine.layer(name) {
            Err(missing) => self.undefined(alloc, name, missing),
            Ok(layer) => {
                let labels = self.engine.labels();
                let symbols = self.engine.symbols();
                let text = print_legend(alloc, name, layer, labels, symbols, tally)?;
                Ok(Reply::shown(text))
            }
        }
    }

    /// To `table`. Of two layers that are undefined the zones are told.
    pub(crate) fn table<M: Tally>(
        &self,
        alloc: Global,
        zones: &Name,
        values: &Name,
        tally: &mut M,
    ) -> Result<Reply, NoMemory>
        ensures says { IfOk result (Says (answer_to (state_asked self.now) (ask_table zones.now values.now)) Kind.Shown) }
        ensures reads { ReadsFor (state_asked self.now) (ask_table zones.now values.now) (M.counts tally.old) (M.counts tally.new) }
    {
        match (self.engine.layer(zones), self.engine.layer(values)) {
            (Err(missing), _) => self.undefined(alloc, zones, missing),
            (Ok(_), Err(missing)) => self.undefined(alloc, values, missing),
            (Ok(z), Ok(v)) => {
                let text = print_table(alloc, zones, values, z, v, tally)?;
                Ok(Reply::shown(text))
            }
        }
    }

    /// To `stamps`.
    pub(crate) fn stamps(&self, alloc: Global, name: &Name) -> Result<Reply, NoMemory>
        ensures { IfOk result (Says (answer_to (state_asked self.now) (ask_stamps name.now)) Kind.Shown) }
    {
        match self.engine.layer(name) {
            Err(missing) => self.undefined(alloc, name, missing),
            Ok(layer) => {
                let text = print_stamps(alloc, name, layer)?;
                Ok(Reply::shown(text))
            }
        }
    }
}
