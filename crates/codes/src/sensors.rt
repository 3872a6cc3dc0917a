ghost use Rattle.std.specs.Prelude.{Some};
ghost use Rattle.kind.specs.Compounds.{names_composed};
ghost use Rattle.codes.specs.declared.sensor.Sensor.{Sensor};
ghost use Rattle.codes.specs.Sensors.{category_letters, categories, category_spelt, format_letters, formats, format_spelt, Parts, in_parts, made, parts, sensor, names, parts_laws};

use crate::sensor::{Categories, Category, Format, Formats, Sensor, Sensors};
use kind::compound::Compound;
use kinds::layers::{Both, Either, OrElse, Then};
use kinds::listed::{Codes, Listed};
use kinds::word::Word;

impl Listed for Categories {
    type Code = Category;

    ghost span = { 2 };

    ghost letters = { category_letters };

    ghost spelt = { category_spelt };

    ghost every = { λ _. categories };

    fn span(&self) -> usize {
        2
    }

    fn letters(&self, code: Category) -> &'static [u8] {
        match code {
            Category::HighInfrared => b"IH",
            Category::MediumInfrared => b"IM",
            Category::LowInfrared => b"IL",
            Category::HighMultispectral => b"MH",
            Category::MediumMultispectral => b"MM",
            Category::LowMultispectral => b"ML",
            Category::HighVisible => b"VH",
            Category::MediumVisible => b"VM",
            Category::LowVisible => b"VL",
            Category::VideoFrame => b"VF",
        }
    }

    fn every(&self) -> &[Category] {
        &[
            Category::HighInfrared,
            Category::MediumInfrared,
            Category::LowInfrared,
            Category::HighMultispectral,
            Category::MediumMultispectral,
            Category::LowMultispectral,
            Category::HighVisible,
            Category::MediumVisible,
            Category::LowVisible,
            Category::VideoFrame,
        ]
    }
}

impl Listed for Formats {
    type Code = Format;

    ghost span = { 2 };

    ghost letters = { format_letters };

    ghost spelt = { format_spelt };

    ghost every = { λ _. formats };

    fn span(&self) -> usize {
        2
    }

    fn letters(&self, code: Format) -> &'static [u8] {
        match code {
            Format::Frame => b"FR",
            Format::LineScan => b"LS",
            Format::Pushbroom => b"PB",
            Format::PanScan => b"PS",
        }
    }

    fn every(&self) -> &[Format] {
        &[
            Format::Frame,
            Format::LineScan,
            Format::Pushbroom,
            Format::PanScan,
        ]
    }
}

impl<'a> Compound<'a> for Sensors {
    type Parts = OrElse<Word<'static>, Then<Codes<Categories>, Codes<Formats>>>;

    type Value = Sensor;

    ghost Val = { Sensor };

    ghost view = { λ v. v };

    ghost Pieces = { Parts };

    ghost seen = { λ p. p };

    ghost built = { λ p. Some (made p) };

    ghost pieces_of = { parts };

    ghost wide = { λ _. 4 };

    ghost in_pieces = { λ _. in_parts };

    ghost reads = { λ _. sensor };

    ghost composed = { λ _. names_composed names parts_laws };

    fn parts(&self) -> OrElse<Word<'static>, Then<Codes<Categories>, Codes<Formats>>> {
        OrElse {
            first: Word { bytes: b"SAR " },
            second: Then {
                first: Codes { list: Categories },
                second: Codes { list: Formats },
            },
        }
    }

    fn build(&self, pieces: Either<(), Both<Category, Format>>) -> Option<Sensor> {
        Some(match pieces {
            Either::First(()) => Sensor::Radar,
            Either::Second(Both { front, back }) => Sensor::Optical {
                category: front,
                format: back,
            },
        })
    }

    fn split(&self, value: &Sensor) -> Either<(), Both<Category, Format>> {
        match *value {
            Sensor::Radar => Either::First(()),
            Sensor::Optical { category, format } => Either::Second(Both {
                front: category,
                back: format,
            }),
        }
    }
}
