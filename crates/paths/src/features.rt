// What an assignment has that a wrong rule would be likely to miss.
use enumeration::{Pins, leaves};

// Whether a net lies over another, or another over it.
pub fn is_constrained(pins: Pins, net: u16) -> bool {
    let nets = pins.sheet.nets();
    nets.iter().any(|other| pins.lies_over(net, *other) || pins.lies_over(*other, net))
}

// Whether a net is in a constraint by its one pin, as it leaves.
pub fn is_leaving_pin(pins: Pins, net: u16) -> bool {
    leaves(net).any() && pins.sheet.count_pins(net) == 1 && is_constrained(pins, net)
}

// Whether a net has another one above or below its pin and is in no constraint, as it is a plain net with one pin.
pub fn is_left_out(pins: Pins, net: u16) -> bool {
    let nets = pins.sheet.nets();
    pins.is_left_out(net)
        && nets.iter().any(|other| net != *other
            && (pins.is_above(net, *other) || pins.is_above(*other, net)))
}

// Whether a net lies on a path from a circle to a circle.
pub fn is_between(pins: Pins, net: u16) -> bool {
    comes_from_circle(pins, net) && leads_to_circle(pins, net)
}

fn comes_from_circle(pins: Pins, net: u16) -> bool {
    let nets = pins.sheet.nets();
    nets.iter().any(|other| pins.leads_to(*other, *other) && pins.leads_to(*other, net))
}

fn leads_to_circle(pins: Pins, net: u16) -> bool {
    let nets = pins.sheet.nets();
    nets.iter().any(|other| pins.leads_to(*other, *other) && pins.leads_to(net, *other))
}
