ghost use Rattle.std.specs.Prelude.{List, IfOk};
ghost use Rattle.cga_form.specs.Lines.{Line};
ghost use Rattle.cga_top.specs.Blocks.{RulesRead, SourcesRead};
ghost use Rattle.cga_top.specs.State.{Block};
ghost use Rattle.cga_top.specs.Replies.{with_line};
ghost use Rattle.cga_top.specs.Session.{IsOpenAs};
ghost use Rattle.cga_top.specs.Ready.{HasRead};
ghost use Rattle.cga_top.specs.Told.{grammar_told, sources_told};
ghost use Rattle.cga_top.specs.TooMany.{DoesAs};
ghost use Rattle.cga_top.specs.Written.{IsWritten};

use crate::laws::one_too_many_is_refused_as_all;
use cga_asset::AssetReader;
use cga_form::BlockFault;
use cga_fraction::NoMemory;
use cga_parser::GrammarReader;
use cga_script::CityReader;
use cga_shape::Edit;
use cga_trace::JudgeReader;
use cga_word::Name;

/// A block that is open.
#[derive(Drop)]
pub(crate) enum OpenBlock {
    Rules(GrammarReader),
    City(CityReader),
    /// An asset of this name.
    Asset(Name, AssetReader),
    /// A trace that is to be judged.
    Judge(JudgeReader),
}

impl OpenBlock {
    /// The block with one more line. Takes memory.
    pub(crate) fn line(self, line: &[u8], long: bool) -> Result<OpenBlock, NoMemory>
        requires { HasRead self }
        ensures open { (b : Block) → IsOpenAs b self
            → IfOk result (IsOpenAs (with_line b (record { bytes = line.now; long = long }))) }
        ensures read { IfOk result HasRead }
    {
        match self {
            OpenBlock::Rules(reader) => {
                let mut reader = reader;
                reader.line(line, long)?;
                Ok(OpenBlock::Rules(reader))
            }
            OpenBlock::City(reader) => {
                let mut reader = reader;
                reader.line(line, long)?;
                Ok(OpenBlock::City(reader))
            }
            OpenBlock::Asset(name, reader) => {
                let mut reader = reader;
                reader.line(line, long)?;
                Ok(OpenBlock::Asset(name, reader))
            }
            OpenBlock::Judge(reader) => {
                let mut reader = reader;
                reader.line(line, long)?;
                Ok(OpenBlock::Judge(reader))
            }
        }
    }
}

/// An edit that does what the one of a block of rules does, or its first faulty line. Takes memory.
pub(crate) fn rules_edit(reader: GrammarReader) -> Result<Result<Edit, BlockFault>, NoMemory>
    requires { (lines : List Line) × RulesRead reader lines }
    ensures told { (lines : List Line) → RulesRead reader lines → IfOk result (DoesAs (grammar_told lines)) }
    ensures written { IfOk result (λ made. IfOk made IsWritten) }
{
    one_too_many_is_refused_as_all();
    match reader.finish()? {
        Ok(grammar) => Ok(Ok(Edit::Rules(grammar))),
        Err(fault) => Ok(Err(fault)),
    }
}

/// An edit that does what the one of a block of a whole city does, or its first faulty line. Takes memory.
pub(crate) fn city_edit(reader: CityReader) -> Result<Result<Edit, BlockFault>, NoMemory>
    requires { (lines : List Line) × SourcesRead reader lines }
    ensures told { (lines : List Line) → SourcesRead reader lines → IfOk result (DoesAs (sources_told lines)) }
    ensures written { IfOk result (λ made. IfOk made IsWritten) }
{
    one_too_many_is_refused_as_all();
    match reader.finish()? {
        Ok(sources) => Ok(Ok(Edit::Whole(sources))),
        Err(fault) => Ok(Err(fault)),
    }
}
