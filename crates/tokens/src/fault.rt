// What is wrong with a text.

#[derive(Clone, Copy, Debug, PartialEq, Eq)]
pub enum Fault {
    Word,
    Number,
    Large,
    Decimals,
    Eighth,
    Comma,
    Alone,
    Figures,
    Twice,
    First,
    Vertices,
    Pieces,
    Lines,
    NoStrip,
    Long,
    Name,
    Unread,
    Shape,
    Coordinate,
    Gap,
    Gaps,
    GapFirst,
}

impl Fault {
    pub fn message(self) -> &'static str {
        match self {
            Fault::Word => "a line begins with strip, gap, piece, path or mm",
            Fault::Number => "a number is expected",
            Fault::Large => "a number is at most 65535 units",
            Fault::Decimals => "one to three digits follow a point",
            Fault::Eighth => "a length is a multiple of 0.125 mm",
            Fault::Comma => "a vertex is x,y",
            Fault::Alone => "nothing follows mm",
            Fault::Figures => "a strip has width, resolution and columns",
            Fault::Twice => "there is one strip",
            Fault::First => "the strip comes before the pieces",
            Fault::Vertices => "a piece has 3 to 64 vertices",
            Fault::Pieces => "a job has at most 200 pieces",
            Fault::Lines => "a text has at most 65535 lines",
            Fault::NoStrip => "there is no strip",
            Fault::Long => "a text has at most 262144 bytes",
            Fault::Name => "a path has a mask and the name of a file",
            Fault::Unread => "the file of the path cannot be read or is empty",
            Fault::Shape => "the path is not one move, 2 to 63 lines and one close",
            Fault::Coordinate => {
                "a coordinate of the path is not a multiple of 0.125 mm from 0 to 2000 mm"
            }
            Fault::Gap => "a gap is one length from 0 to 50 mm",
            Fault::Gaps => "there is one gap",
            Fault::GapFirst => "the gap comes before the pieces",
        }
    }
}
