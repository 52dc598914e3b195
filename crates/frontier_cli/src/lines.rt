//! The lines of the error stream, written piece by piece, so that they take no memory of the program's own.

ghost use Rattle.std.specs.Prelude.{◌≡◌, ◌≤◌, ◌∷◌, ◌++◌, [], OnOk, IsErrOf, codes, decimal};
ghost use Rattle.std.specs.List.{concat, flat_map};
ghost use Rattle.edge_core.specs.Faults.{Rose};
ghost use Rattle.edge_core.specs.Sink.{Gains, GainsFront};
ghost use Rattle.frontier_cli.specs.Lines.{file_words, instance_line, node_parts, plan_parts, point_parts, price_parts, refusal_line, text_line, text_words, tour_parts};
ghost use Rattle.frontier_cli.specs.Outcome.{line_of};
ghost use Rattle.frontier_cli.specs.Refusal.{piece_text, refused};

use crate::refusal::Refusal;
use cert_text::TextCause;
use edge_core::{Sink, SinkFail};
use instance_files::FileCause;
use itoa::Buffer;
use orienteering::{CheckFail, NodeCause, PlanRefusal, PointWhy, PriceRefusal, TourRefusal};

/// A piece of a line.
#[derive(Clone, Copy)]
pub(crate) enum Piece<'a> {
    Text(&'a str),
    Number(u64),
}

/// What fills up a line of fewer pieces.
const NOTHING: &str = "";

fn file_words(cause: FileCause) -> &'static str
    ensures { result.now ≡ file_words cause }
{
    match cause {
        FileCause::Head => "head\n",
        FileCause::Fields => "fields\n",
        FileCause::Number => "number\n",
        FileCause::Score => "score\n",
        FileCause::Window => "window\n",
        FileCause::Team => "team\n",
        FileCause::RowCount => "row count\n",
        FileCause::TooMany => "too many\n",
        FileCause::OutOfRange => "out of range\n",
    }
}

fn text_words(cause: TextCause) -> &'static str
    ensures { result.now ≡ text_words cause }
{
    match cause {
        TextCause::End => ": end\n",
        TextCause::Syntax => ": syntax\n",
    }
}

fn tour_pieces<'a>(why: TourRefusal) -> [Piece<'a>; 3]
    ensures { flat_map piece_text result ≡ concat (tour_parts why) }
{
    match why {
        TourRefusal::Empty => [
            Piece::Text("empty\n"),
            Piece::Text(NOTHING),
            Piece::Text(NOTHING),
        ],
        TourRefusal::UnknownCall(call) => [
            Piece::Text("call "),
            Piece::Number(u64::from(call)),
            Piece::Text(" unknown\n"),
        ],
        TourRefusal::Repeat(call) => [
            Piece::Text("call "),
            Piece::Number(u64::from(call)),
            Piece::Text(" repeated\n"),
        ],
        TourRefusal::Late(place) => [
            Piece::Text("place "),
            Piece::Number(u64::from(place)),
            Piece::Text(" late\n"),
        ],
    }
}

fn plan_pieces<'a>(why: PlanRefusal) -> [Piece<'a>; 6]
    ensures { flat_map piece_text result ≡ concat (plan_parts why) }
{
    match why {
        PlanRefusal::TooManyTours => [
            Piece::Text("too many tours\n"),
            Piece::Text(NOTHING),
            Piece::Text(NOTHING),
            Piece::Text(NOTHING),
            Piece::Text(NOTHING),
            Piece::Text(NOTHING),
        ],
        PlanRefusal::Tour { tour, why } => {
            let [first, second, third] = tour_pieces(why);
            [
                Piece::Text("tour "),
                Piece::Number(tour),
                Piece::Text(": "),
                first,
                second,
                third,
            ]
        }
        PlanRefusal::Shared { tour, call } => [
            Piece::Text("tour "),
            Piece::Number(tour),
            Piece::Text(": call "),
            Piece::Number(u64::from(call)),
            Piece::Text(" shared\n"),
            Piece::Text(NOTHING),
        ],
    }
}

fn point_pieces<'a>(why: PointWhy) -> [Piece<'a>; 6]
    ensures { flat_map piece_text result ≡ concat (point_parts why) }
{
    match why {
        PointWhy::Plan(why) => plan_pieces(why),
        PointWhy::WrongValue => [
            Piece::Text("wrong value\n"),
            Piece::Text(NOTHING),
            Piece::Text(NOTHING),
            Piece::Text(NOTHING),
            Piece::Text(NOTHING),
            Piece::Text(NOTHING),
        ],
    }
}

fn price_words(why: PriceRefusal) -> (u64, &'static str)
    ensures { concat (codes "price " ∷ decimal result.0 ∷ result.1.now ∷ []) ≡ concat (price_parts why) }
{
    match why {
        PriceRefusal::UnknownCall(entry) => (entry, " unknown call\n"),
        PriceRefusal::NotRising(entry) => (entry, " not rising\n"),
        PriceRefusal::OutOfRange(entry) => (entry, " out of range\n"),
        PriceRefusal::Negative(entry) => (entry, " negative\n"),
    }
}

fn node_pieces<'a>(cause: NodeCause) -> [Piece<'a>; 3]
    ensures { flat_map piece_text result ≡ concat (node_parts cause) }
{
    let words = match cause {
        NodeCause::Price(why) => {
            let (entry, words) = price_words(why);
            return [
                Piece::Text("price "),
                Piece::Number(entry),
                Piece::Text(words),
            ];
        }
        NodeCause::NoProgress => "no progress\n",
        NodeCause::CutUnderCut => "cut under cut\n",
        NodeCause::Critical => "critical set\n",
        NodeCause::NoSuchCut => "no such cut\n",
        NodeCause::NotAbove => "not above\n",
        NodeCause::NotDominated => "not dominated\n",
        NodeCause::NotStuck => "not stuck\n",
    };
    [
        Piece::Text(words),
        Piece::Text(NOTHING),
        Piece::Text(NOTHING),
    ]
}

/// The line of a point, in nine pieces.
fn point_line<'a>(k: u64, pieces: [Piece<'a>; 6]) -> [Piece<'a>; 9]
    ensures { flat_map piece_text result
        ≡ concat (codes "certificate: point " ∷ decimal k ∷ codes ": " ∷ flat_map piece_text pieces.entry ∷ []) }
{
    let [first, second, third, fourth, fifth, sixth] = pieces;
    [
        Piece::Text("certificate: point "),
        Piece::Number(k),
        Piece::Text(": "),
        first,
        second,
        third,
        fourth,
        fifth,
        sixth,
    ]
}

/// The line of a node, in nine pieces.
fn node_line<'a>(index: u64, pieces: [Piece<'a>; 3]) -> [Piece<'a>; 9]
    ensures { flat_map piece_text result
        ≡ concat (codes "certificate: node " ∷ decimal index ∷ codes ": " ∷ flat_map piece_text pieces.entry ∷ []) }
{
    let [first, second, third] = pieces;
    [
        Piece::Text("certificate: node "),
        Piece::Number(index),
        Piece::Text(": "),
        first,
        second,
        third,
        Piece::Text(NOTHING),
        Piece::Text(NOTHING),
        Piece::Text(NOTHING),
    ]
}

fn refusal_line<'a>(fail: CheckFail) -> [Piece<'a>; 9]
    ensures { flat_map piece_text result ≡ refusal_line fail }
{
    match fail {
        CheckFail::PointRefused { k, why } => point_line(k, point_pieces(why)),
        CheckFail::NotRising { k } => point_line(
            k,
            [
                Piece::Text("not rising\n"),
                Piece::Text(NOTHING),
                Piece::Text(NOTHING),
                Piece::Text(NOTHING),
                Piece::Text(NOTHING),
                Piece::Text(NOTHING),
            ],
        ),
        CheckFail::NodeRefused { index, cause } => node_line(index, node_pieces(cause)),
        CheckFail::Shape { index } => {
            node_line(
                index,
                [
                    Piece::Text("shape\n"),
                    Piece::Text(NOTHING),
                    Piece::Text(NOTHING),
                ],
            )
        }
        CheckFail::TooManyLabels { index } => node_line(
            index,
            [
                Piece::Text("too many labels\n"),
                Piece::Text(NOTHING),
                Piece::Text(NOTHING),
            ],
        ),
        CheckFail::OtherInstance => whole_line("certificate: other instance\n"),
        CheckFail::Memory => whole_line("out of memory\n"),
    }
}

/// A line of one piece.
fn whole_line<'a>(text: &'a str) -> [Piece<'a>; 9]
    ensures { flat_map piece_text result ≡ text.entry.now }
{
    [
        Piece::Text(text),
        Piece::Text(NOTHING),
        Piece::Text(NOTHING),
        Piece::Text(NOTHING),
        Piece::Text(NOTHING),
        Piece::Text(NOTHING),
        Piece::Text(NOTHING),
        Piece::Text(NOTHING),
        Piece::Text(NOTHING),
    ]
}

/// A line of three texts.
fn words_line<'a>(opening: &'a str, subject: &'a str, ending: &'a str) -> [Piece<'a>; 9]
    ensures { flat_map piece_text result ≡ opening.entry.now ++ (subject.entry.now ++ ending.entry.now) }
{
    [
        Piece::Text(opening),
        Piece::Text(subject),
        Piece::Text(ending),
        Piece::Text(NOTHING),
        Piece::Text(NOTHING),
        Piece::Text(NOTHING),
        Piece::Text(NOTHING),
        Piece::Text(NOTHING),
        Piece::Text(NOTHING),
    ]
}

fn instance_line<'a>(line: u64, cause: FileCause) -> [Piece<'a>; 9]
    ensures { flat_map piece_text result ≡ instance_line line cause }
{
    [
        Piece::Text("instance: line "),
        Piece::Number(line),
        Piece::Text(": "),
        Piece::Text(file_words(cause)),
        Piece::Text(NOTHING),
        Piece::Text(NOTHING),
        Piece::Text(NOTHING),
        Piece::Text(NOTHING),
        Piece::Text(NOTHING),
    ]
}

fn text_line<'a>(at: u64, cause: TextCause) -> [Piece<'a>; 9]
    ensures { flat_map piece_text result ≡ text_line at cause }
{
    [
        Piece::Text("certificate: byte "),
        Piece::Number(at),
        Piece::Text(text_words(cause)),
        Piece::Text(NOTHING),
        Piece::Text(NOTHING),
        Piece::Text(NOTHING),
        Piece::Text(NOTHING),
        Piece::Text(NOTHING),
        Piece::Text(NOTHING),
    ]
}

fn read_line<'a>(name: &'a str) -> [Piece<'a>; 9]
    ensures { flat_map piece_text result ≡ concat (codes "read fault: " ∷ name.entry.now ∷ codes "\n" ∷ []) }
{
    [
        Piece::Text("read fault: "),
        Piece::Text(name),
        Piece::Text("\n"),
        Piece::Text(NOTHING),
        Piece::Text(NOTHING),
        Piece::Text(NOTHING),
        Piece::Text(NOTHING),
        Piece::Text(NOTHING),
        Piece::Text(NOTHING),
    ]
}

/// The line of a refusal.
fn line_pieces<'a>(refusal: &'a Refusal<'_>) -> [Piece<'a>; 9]
    ensures { flat_map piece_text result ≡ line_of (refused refusal.entry.now) }
{
    match refusal {
        Refusal::Words {
            opening,
            subject,
            ending,
        } => {
            let (opening, subject, ending): (&'a str, &'a str, &'a str) = (
                opening, subject, ending,
            );
            words_line(opening, subject, ending)
        }
        Refusal::Reader(text) => whole_line(text.as_str()),
        Refusal::InstanceTooLong => whole_line("instance: too long\n"),
        Refusal::Instance { line, cause } => instance_line(*line, *cause),
        Refusal::CertText { at, cause } => text_line(*at, *cause),
        Refusal::Cert(fail) => refusal_line(*fail),
        Refusal::Read(name) => {
            let name: &'a str = name;
            read_line(name)
        }
        Refusal::Write => whole_line("write fault\n"),
        Refusal::Memory => whole_line("out of memory\n"),
    }
}

fn write_piece<E: Sink>(err: &mut E, piece: Piece<'_>) -> Result<(), SinkFail>
    ensures written { OnOk result
        (Gains (piece_text piece.entry) (E.state err.old).bytes (E.state err.new).bytes) }
    ensures front { GainsFront (piece_text piece.entry) (E.state err.old).bytes (E.state err.new).bytes }
    ensures later { (E.state err.old).faults ≤ (E.state err.new).faults }
    ensures cause { IsErrOf result SinkFail.Failed → Rose (E.state err.old).faults (E.state err.new).faults }
{
    match piece {
        Piece::Text(text) => err.write_all(text.as_bytes()),
        Piece::Number(number) => err.write_all(Buffer::new().format(number).as_bytes()),
    }
}

fn write_pieces<E: Sink>(err: &mut E, pieces: &[Piece<'_>]) -> Result<(), SinkFail>
    ensures written { OnOk result
        (Gains (flat_map piece_text pieces.now) (E.state err.old).bytes (E.state err.new).bytes) }
    ensures front { GainsFront (flat_map piece_text pieces.now) (E.state err.old).bytes (E.state err.new).bytes }
    ensures later { (E.state err.old).faults ≤ (E.state err.new).faults }
    ensures cause { IsErrOf result SinkFail.Failed → Rose (E.state err.old).faults (E.state err.new).faults }
{
    for piece in pieces {
        write_piece(err, *piece)?;
    }
    Ok(())
}

/// Writes the line of a refusal.
pub(crate) fn write_line<E: Sink>(err: &mut E, refusal: &Refusal<'_>) -> Result<(), SinkFail>
    ensures written { OnOk result
        (Gains (line_of (refused refusal.now)) (E.state err.old).bytes (E.state err.new).bytes) }
    ensures front { GainsFront (line_of (refused refusal.now)) (E.state err.old).bytes (E.state err.new).bytes }
    ensures later { (E.state err.old).faults ≤ (E.state err.new).faults }
    ensures cause { IsErrOf result SinkFail.Failed → Rose (E.state err.old).faults (E.state err.new).faults }
{
    write_pieces(err, &line_pieces(refusal))
}
