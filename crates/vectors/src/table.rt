// The vectors, in the order of their addresses.
ghost use Rattle.std.specs.Prelude.{◌≡◌};
ghost use Rattle.vectors.specs.Table.{address_of, masks_of, is_entire, software_vector};

use opcodes::Software;

#[derive(Clone, Copy)]
pub enum Vector {
    Swi3,
    Swi2,
    Firq,
    Irq,
    Swi,
    Nmi,
    Reset,
}

impl Vector {
    pub fn of_software(which: Software) -> Vector
        ensures { result ≡ software_vector which }
    {
        match which {
            Software::Swi => Vector::Swi,
            Software::Swi2 => Vector::Swi2,
            Software::Swi3 => Vector::Swi3,
        }
    }

    pub fn address(self) -> u16
        ensures { result ≡ address_of self }
    {
        match self {
            Vector::Swi3 => 0xFFF2,
            Vector::Swi2 => 0xFFF4,
            Vector::Firq => 0xFFF6,
            Vector::Irq => 0xFFF8,
            Vector::Swi => 0xFFFA,
            Vector::Nmi => 0xFFFC,
            Vector::Reset => 0xFFFE,
        }
    }

    // What is ORed into CC after stacking; reset sets CC to it.
    pub fn masks(self) -> u8
        ensures { result ≡ masks_of self }
    {
        match self {
            Vector::Swi3 | Vector::Swi2 => 0,
            Vector::Irq => 0x10,
            Vector::Firq | Vector::Swi | Vector::Nmi | Vector::Reset => 0x50,
        }
    }

    // FIRQ is fast because it stacks PC and CC alone. Reset is not served by a frame.
    pub fn is_entire(self) -> bool
        ensures { result ≡ is_entire self }
    {
        !matches!(self, Vector::Firq | Vector::Reset)
    }
}
