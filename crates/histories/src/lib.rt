// What programs do as histories: calls one after the other, writes in lent objects, images that are read on any board. Laws only.
#![tactic(auto)]
