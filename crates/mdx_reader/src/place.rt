//! Where a reader of queries stands.

use crate::kept::Kept;
use olap_meaning::{List, Text};
use query_meaning::{AxisText, Query, SetText, SetTexts};
use text_forms::Stack;

/// Which axis it is, and the columns where it is the rows.
#[derive(Drop)]
pub enum Which {
    Columns,
    Rows(Kept<AxisText>),
}

/// The axis whose set is read.
#[derive(Drop)]
pub struct Head {
    pub which: Which,
    pub non_empty: bool,
}

/// A set that is not closed yet, with the byte at which it begins, and around the set that is read now.
#[derive(Drop)]
pub enum Frame {
    /// Braces: how many sets may stand around one another in an item, and the items that were read.
    Braces(u32, u8, SetTexts),
    /// The first part of a Crossjoin: how many sets may stand around one another in a part.
    First(u32, u8),
    /// The second part of a Crossjoin, after the first.
    Second(u32, SetText),
}

/// What stands before a slicer.
#[derive(Drop)]
pub struct Base {
    pub columns: Kept<AxisText>,
    pub rows: Option<Kept<AxisText>>,
    pub cube: Text,
}

/// Whose path a path is.
#[derive(Drop)]
pub enum PathOf {
    /// Of a set that begins with it.
    Alone(Head, Stack<Frame>, u32),
    /// Of a set that is a tuple, after these paths.
    InTuple(Head, Stack<Frame>, u32, List<List<Text>>),
    /// Of the slicer.
    Slicer(Base),
    /// Of the slicer's tuple, after these paths.
    InSlicer(Base, List<List<Text>>),
}

/// A reader in the middle of a query.
#[derive(Drop)]
pub enum Place {
    /// Before SELECT.
    Start,
    /// Before an axis.
    AnAxis(Which),
    /// After NON.
    Non(Which),
    /// Before a set in which this many others may stand around one another.
    ASet(Head, Stack<Frame>, u8),
    /// After the "{" at this byte, of a set in which this many others may stand around one another.
    AnItem(Head, Stack<Frame>, u32, u8),
    /// After the Crossjoin at this byte, of a set in which this many others may stand around one another.
    Crossing(Head, Stack<Frame>, u32, u8),
    /// Before a path.
    APath(PathOf),
    /// In a path, after these names.
    AfterName(PathOf, List<Text>),
    /// In a path, after these names and a dot.
    AfterDot(PathOf, List<Text>),
    /// After a set.
    AfterSet(Head, Stack<Frame>, SetText),
    /// After an axis and ON.
    On(Which, Kept<AxisText>),
    /// After the columns.
    AfterColumns(Kept<AxisText>),
    /// After the rows.
    AfterRows(Kept<AxisText>, Kept<AxisText>),
    /// After FROM.
    ACube(Kept<AxisText>, Option<Kept<AxisText>>),
    /// After the cube.
    AfterCube(Base),
    /// After WHERE.
    ASlicer(Base),
    /// After the slicer's tuple.
    Done(Kept<Query>),
}
