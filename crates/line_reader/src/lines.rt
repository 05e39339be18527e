//! Lines of the input.

ghost use Rattle.std.specs.Prelude.{◌≡◌, ◌<◌, ◌&&◌, not, false, length, IfSome, IfNone, OnOk};
ghost use Rattle.std.specs.List.{list_all};
ghost use Rattle.line_reader.specs.Given.{IsStopCaused, stop_of};
ghost use Rattle.line_reader.specs.Line.{is_blank_byte};
ghost use Rattle.line_reader.specs.Reading.{Reads, LineOf, FilledOf, IsCutAt, has_newline};
ghost use Rattle.line_reader.specs.Seen.{KnowsEnd, longest_piece};

use crate::input::Input;
use crate::line::are_blanks;
use crate::line_buffer::LineBuffer;
use crate::stop::Stop;
use io_edges::Source;
use memchr::memchr;

// The index of the first newline.
#[tactic(auto, using(crate::proofs::Cuts::found_cut, crate::proofs::Cuts::none_cut))]
fn newline_at(bytes: &[u8]) -> Option<usize>
    ensures found { IfSome result (λ at. IsCutAt at bytes.now) }
    ensures none { IfNone result (has_newline bytes.now ≡ false) }
{
    memchr(b'\n', bytes)
}

/// Reads the next line; the input may end the last one. Each byte is copied once, and no memory is taken.
fn read_line<S: Source>(
    source: &mut S,
    input: &mut Input,
    line: &mut LineBuffer,
) -> Result<(), Stop>
    requires known { KnowsEnd input.old (S.left source.old) }
    ensures reads { Reads (stop_of result) input.old input.new (S.left source.old) (S.left source.new) (LineOf (stop_of result) input.new.ended line.new) }
    ensures near { OnOk result (length input.new.unread < longest_piece) }
    ensures known { KnowsEnd input.new (S.left source.new) }
    ensures cause { IsStopCaused (stop_of result) (S.faults source.old) (S.faults source.new) }
{
    line.clear();
    'pieces: loop {
        if let Some(at) = newline_at(input.unread()) {
            line.add(input.unread().split_at(at).0);
            input.skip(at + 1);
            return Ok(());
        }
        line.add(input.unread());
        input.skip_all();
        match input.fill(source) {
            Ok(()) => {}
            Err(stop) => {
                return if line.is_empty() {
                    Err(stop)
                } else {
                    stop.unless_end()
                };
            }
        }
    }
}

/// Reads the next line that isn't blank.
pub(crate) fn next_line<S: Source>(
    source: &mut S,
    input: &mut Input,
    line: &mut LineBuffer,
) -> Result<(), Stop>
    requires known { KnowsEnd input.old (S.left source.old) }
    ensures reads { Reads (stop_of result) input.old input.new (S.left source.old) (S.left source.new) (FilledOf (stop_of result) input.new.ended line.new) }
    ensures near { OnOk result (length input.new.unread < longest_piece) }
    ensures known { KnowsEnd input.new (S.left source.new) }
    ensures cause { IsStopCaused (stop_of result) (S.faults source.old) (S.faults source.new) }
{
    'lines: loop {
        read_line(source, input, line)?;
        if !is_blank(line) {
            return Ok(());
        }
    }
}

// Whether a line is blank; one that is too long is not.
fn is_blank(line: &LineBuffer) -> bool
    ensures { result ≡ (not line.now.long && list_all is_blank_byte line.now.kept) }
{
    !line.is_long() && are_blanks(line.kept())
}
